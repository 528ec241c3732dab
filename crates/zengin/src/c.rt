// The check in one number, as a program in C receives it; the crate zengin_c exports it.
ghost use Rattle.std.specs.Prelude.{◌≡◌, Err};
ghost use Rattle.zengin.specs.Judged.{judged, coded};
ghost use Rattle.zengin.specs.Lawful.{Lawful};
ghost use Rattle.zengin.specs.Offences.{NamesFirst, Placed};

use crate::check::check;
use denials::Denial;

// 0, or the denial's number, record and column in one number, since C is handed one.
fn in_one_number(judgement: Result<(), Denial>) -> u64
    requires { (denial : Denial) → judgement ≡ Err denial → Placed denial }
    ensures { result ≡ coded judgement }
{
    match judgement {
        Ok(()) => 0,
        Err(denial) => {
            let told = denial.told();
            u64::from(told.number) * 100_000_000 + told.record as u64 * 1_000 + told.column as u64
        }
    }
}

/// 0 for a lawful file, else the denial's number × 100,000,000 + record × 1,000 + column.
pub fn zengin_check(file: &[u8]) -> u64
    ensures answer { result ≡ coded (judged file.now) }
    ensures passes { result ≡ 0 → Lawful file.now }
    ensures lawful { Lawful file.now → result ≡ 0 }
    ensures named { (denial : Denial) → NamesFirst file.now denial → result ≡ coded (Err denial) }
{
    in_one_number(check(file))
}
