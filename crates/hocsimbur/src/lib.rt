// The operations offered to callers, in the order of the specification, and the types that they name. None has a condition on its
// arguments: what breaks a rule is refused.
#![tactic(auto)]

ghost use Rattle.hocsimbur.specs.Asked.{FactorAnswered, SizeAnswered, TolerableAnswered, ResistanceAnswered, RowAnswered};

pub use case::Case;
use case::judge;
pub use conversion::{carry, carry_back};
pub use decision::Verdict;
use decrement::df;
pub use headroom::headroom;
// A pair of ends, offered for its two numbers. Its methods, which require conditions on their arguments, are for the crates below and not
// among the operations offered.
pub use interval::Interval;
pub use logarithm::logarithm;
pub use margin::margins;
pub use readings::{Report, soil};
pub use refusal::Refused;
pub use release::release;
pub use row::Row;
// The twenty numbers of a row in the table's order, as `margins` takes them.
pub use row::row_numbers;
pub use sheet::{Answer, sheet};
pub use staged::{GridShare, split};
pub use stations::{Counts, summary};
// The quantities between a case and its row.
pub use working::{Quantities, working};
// The thirty ends of a working, in the order of its quantities.
pub use tolerable::TouchAndStep;
pub use working::working_numbers;
pub use yards::{FewestLines, fewest_lines};

// The ends of the decrement factor in billionths.
pub fn decrement_factor(c: Case) -> Result<Interval, Refused>
    ensures { FactorAnswered c result }
{
    judge(c)?;
    Ok(df(c))
}

// The conductor size in whole kcmil.
pub fn conductor_size(c: Case) -> Result<u64, Refused>
    ensures { SizeAnswered c result }
{
    judge(c)?;
    Ok(current::conductor_size(c, df(c)))
}

// The ends of the tolerable touch and step voltage in mV.
pub fn touch_and_step(c: Case) -> Result<TouchAndStep, Refused>
    ensures { TolerableAnswered c result }
{
    judge(c)?;
    Ok(tolerable::touch_and_step(c))
}

// The ends of the resistance in micro-ohms.
pub fn resistance(c: Case) -> Result<Interval, Refused>
    ensures { ResistanceAnswered c result }
{
    judge(c)?;
    Ok(resistance::resistance(c))
}

// The row of a case.
pub fn row(c: Case) -> Result<Row, Refused>
    ensures { RowAnswered c result }
{
    judge(c)?;
    Ok(row::work_row(c))
}
