//! One clock of the 3001.
ghost use Rattle.std.specs.Prelude.{◌≡◌, ◌<◌};
ghost use Rattle.mcu_jumps.specs.NextAddress.{next_of};
ghost use Rattle.mcu_chip.specs.ChipState.{IsChipState};
ghost use Rattle.mcu_chip.specs.FlagStep.{flag_out, readings_of, next_c, next_z, next_pr, is_strobe, pr_shown};

use crate::{FlagCtl, FlagIn, FlagOut, Mcu, McuOut};
use mcu_jumps::{Code, Jump, Tests, next};

/// The flag output FO under these flag functions, from C and Z of the chip as the clock begins (data sheet).
pub fn fo(mcu: &Mcu, ctl: FlagCtl) -> bool
    ensures { result ≡ flag_out ctl.output mcu.now.c mcu.now.z }
{
    flag_out(ctl.output, mcu.c, mcu.z)
}

/// The flag output FO under this function, from C and Z as the clock begins (data sheet).
pub fn flag_out(output: FlagOut, c: bool, z: bool) -> bool
    ensures { result ≡ flag_out output c z }
{
    match output {
        FlagOut::Ff0 => false,
        FlagOut::Ffc => c,
        FlagOut::Ffz => z,
        FlagOut::Ff1 => true,
    }
}

/// C after a clock whose flag input is `fi`, from C before it (data sheet).
pub fn next_c(input: FlagIn, c: bool, fi: bool) -> bool
    ensures { result ≡ next_c input c fi }
{
    match input {
        FlagIn::Scz | FlagIn::Stc => fi,
        FlagIn::Stz | FlagIn::Hcz => c,
    }
}

/// Z after a clock whose flag input is `fi`, from Z before it (data sheet).
pub fn next_z(input: FlagIn, z: bool, fi: bool) -> bool
    ensures { result ≡ next_z input z fi }
{
    match input {
        FlagIn::Scz | FlagIn::Stz => fi,
        FlagIn::Stc | FlagIn::Hcz => z,
    }
}

/// One clock, in which the flag input is `fi`, PX7..PX4 is `px` and SX3..SX0 is `sx`, each 0 to 15.
pub fn step(mcu: &Mcu, jump: Jump, ctl: FlagCtl, fi: bool, px: u8, sx: u8) -> McuOut
    requires px_in_range { px < 16 }
    requires sx_in_range { sx < 16 }
    ensures cell { result.mcu.cell ≡ next_of mcu.now.cell jump (readings_of mcu.now fi px) }
    ensures f { result.mcu.f ≡ fi }
    ensures c { result.mcu.c ≡ next_c ctl.input mcu.now.c fi }
    ensures z { result.mcu.z ≡ next_z ctl.input mcu.now.z fi }
    ensures pr { result.mcu.pr ≡ next_pr jump.code mcu.now.pr sx }
    ensures ise { result.ise ≡ is_strobe jump.code jump.operand }
    ensures pr_out { result.pr_out ≡ pr_shown jump.code mcu.now.pr }
    ensures in_range { IsChipState result.mcu }
{
    // F takes the flag input before the next address is formed; the others are tested as they stood.
    let tests = Tests {
        f: fi,
        c: mcu.c,
        z: mcu.z,
        pr: mcu.pr,
        px,
    };
    let code = jump.code();
    McuOut {
        mcu: Mcu {
            cell: next(mcu.cell, jump, tests),
            f: fi,
            c: next_c(ctl.input, mcu.c, fi),
            z: next_z(ctl.input, mcu.z, fi),
            pr: if code == Code::Jpx { sx } else { mcu.pr },
        },
        ise: code == Code::Jzr && jump.operand() == 15,
        pr_out: (code == Code::Jce).then_some(mcu.pr & 7),
    }
}
