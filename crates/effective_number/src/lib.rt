// Ki, from n, the effective number of parallel conductors. The ends of n are in specs/; code has them from the table of `by_counts`.
#![tactic(auto)]

ghost use Rattle.std.specs.Prelude.{◌≡◌};
ghost use Rattle.interval.specs.Span.{Span};
ghost use Rattle.effective_number.specs.Number.{ki_ends};

use interval::Interval;

// Ki in 10^-10.
pub fn ki(n: Interval) -> Interval
    requires { Span n 20000000 250000000 2 }
    ensures { result ≡ ki_ends n }
{
    Interval::point(6440000000).sum(n.scaled(148))
}
