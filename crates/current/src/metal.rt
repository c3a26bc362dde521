// The metals of IEEE Std 80-2013, Table 2.
ghost use Rattle.std.specs.Prelude.{◌≡◌};
ghost use Rattle.current.specs.Metal.{constant_of};

// The table of metals, by which each number from 1 to 11 has a Kf.
#[derive(Clone, Copy)]
pub struct Metal;

// Kf of each metal in hundredths.
impl Metal {
    pub const SOFT_DRAWN_COPPER: u32 = 700;

    pub const HARD_DRAWN_COPPER: u32 = 706;

    pub const HARD_DRAWN_COPPER_250: u32 = 1178;

    pub const COPPER_CLAD_WIRE_40: u32 = 1045;

    pub const COPPER_CLAD_WIRE_30: u32 = 1206;

    pub const COPPER_CLAD_ROD: u32 = 1464;

    pub const ALUMINUM_CLAD_WIRE: u32 = 1726;

    pub const STEEL_1020: u32 = 1839;

    pub const STAINLESS_CLAD_ROD: u32 = 1472;

    pub const ZINC_COATED_ROD: u32 = 2896;

    pub const STAINLESS_304: u32 = 3005;

    // The Kf of the metal with this number.
    pub fn kf(number: u32) -> Option<u32>
        ensures { result ≡ constant_of number }
    {
        match number {
            1 => Some(Metal::SOFT_DRAWN_COPPER),
            2 => Some(Metal::HARD_DRAWN_COPPER),
            3 => Some(Metal::HARD_DRAWN_COPPER_250),
            4 => Some(Metal::COPPER_CLAD_WIRE_40),
            5 => Some(Metal::COPPER_CLAD_WIRE_30),
            6 => Some(Metal::COPPER_CLAD_ROD),
            7 => Some(Metal::ALUMINUM_CLAD_WIRE),
            8 => Some(Metal::STEEL_1020),
            9 => Some(Metal::STAINLESS_CLAD_ROD),
            10 => Some(Metal::ZINC_COATED_ROD),
            11 => Some(Metal::STAINLESS_304),
            _ => None,
        }
    }
}
