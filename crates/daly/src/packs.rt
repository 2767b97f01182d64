// The pack check, for C: the number and the check, which is all zero where the number is not.
ghost use Rattle.std.specs.Prelude.{◌≡◌};
ghost use Rattle.pack.specs.Pack.{pack_answer};
ghost use Rattle.daly.specs.Packs.{pack_told};

use frame::Refusal;
use pack::PackCheck;

// C reads it (include/daly.h).
#[repr(C)]
#[derive(Clone, Copy, Debug, Default, PartialEq, Eq)]
pub struct PackTold {
    pub number: u8,
    pub agrees: bool,
    pub difference: i32,
}

impl From<Result<PackCheck, Refusal>> for PackTold {
    ghost from_gives = { λ answer told. told ≡ pack_told answer };

    fn from(answer: Result<PackCheck, Refusal>) -> PackTold {
        match answer {
            Ok(check) => PackTold {
                number: 0,
                agrees: check.agrees,
                difference: check.difference,
            },
            Err(refusal) => PackTold {
                number: refusal.into(),
                ..PackTold::default()
            },
        }
    }
}

#[unsafe(no_mangle)]
pub extern "C" fn daly_pack_check(cells: &[u16], total_voltage: u16) -> PackTold
    ensures { result ≡ pack_told (pack_answer cells.now total_voltage) }
{
    pack::pack_check(cells, total_voltage).into()
}
