// The check for a program in C: a static library of one call, which include/zengin.h declares.
#![tactic(auto)]

ghost use Rattle.std.specs.Prelude.{◌≡◌, Err};
ghost use Rattle.denials.specs.declared.Denial.{Denial};
ghost use Rattle.zengin.specs.Judged.{judged, coded};
ghost use Rattle.zengin.specs.Lawful.{Lawful};
ghost use Rattle.zengin.specs.Offences.{NamesFirst};

/// 0 for a lawful file, else the denial's number × 100,000,000 + record × 1,000 + column.
// A crate is a library or a static library, so the call of the crate `zengin` stands here once more, for C.
#[unsafe(no_mangle)]
pub extern "C" fn zengin_check(file: &[u8]) -> u64
    ensures answer { result ≡ coded (judged file.now) }
    ensures passes { result ≡ 0 → Lawful file.now }
    ensures lawful { Lawful file.now → result ≡ 0 }
    ensures named { (denial : Denial) → NamesFirst file.now denial → result ≡ coded (Err denial) }
{
    zengin::c::zengin_check(file)
}
