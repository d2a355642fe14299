//! The text of each reason for which a line is refused.

use super::says;
use bus_script::ScriptKind;
use field_decl::AsmKind;
use replies::{Status, refuse_asm, refuse_script};

/// How line 12 of the source `s` is refused for each reason.
const ASM_TEXTS: [(AsmKind, &[u8]); 36] = [
    (AsmKind::BadByte(7), b"refused s line 12 BadByte col 7\n"),
    (
        AsmKind::BadNumber(1),
        b"refused s line 12 BadNumber col 1\n",
    ),
    (
        AsmKind::NumberTooWide(9),
        b"refused s line 12 NumberTooWide col 9\n",
    ),
    (
        AsmKind::NameTooLong(4294967295),
        b"refused s line 12 NameTooLong col 4294967295\n",
    ),
    (
        AsmKind::UnknownDirective,
        b"refused s line 12 UnknownDirective\n",
    ),
    (AsmKind::Shape, b"refused s line 12 Shape\n"),
    (AsmKind::Late, b"refused s line 12 Late\n"),
    (AsmKind::Slices, b"refused s line 12 Slices\n"),
    (AsmKind::KBus, b"refused s line 12 KBus\n"),
    (AsmKind::WordTooWide, b"refused s line 12 WordTooWide\n"),
    (AsmKind::FieldTwice, b"refused s line 12 FieldTwice\n"),
    (AsmKind::FieldWidth, b"refused s line 12 FieldWidth\n"),
    (
        AsmKind::DefaultTooWide,
        b"refused s line 12 DefaultTooWide\n",
    ),
    (AsmKind::Prom, b"refused s line 12 Prom\n"),
    (AsmKind::WriteField, b"refused s line 12 WriteField\n"),
    (AsmKind::Rows, b"refused s line 12 Rows\n"),
    (AsmKind::StartTwice, b"refused s line 12 StartTwice\n"),
    (AsmKind::PinRange, b"refused s line 12 PinRange\n"),
    (AsmKind::PinTwice, b"refused s line 12 PinTwice\n"),
    (AsmKind::LabelTwice, b"refused s line 12 LabelTwice\n"),
    (AsmKind::TooMany, b"refused s line 12 TooMany\n"),
    (AsmKind::Function, b"refused s line 12 Function\n"),
    (AsmKind::Mnemonic, b"refused s line 12 Mnemonic\n"),
    (AsmKind::Register, b"refused s line 12 Register\n"),
    (AsmKind::MaskShape, b"refused s line 12 MaskShape\n"),
    (AsmKind::ShiftMask, b"refused s line 12 ShiftMask\n"),
    (AsmKind::FlagName, b"refused s line 12 FlagName\n"),
    (AsmKind::SettingTwice, b"refused s line 12 SettingTwice\n"),
    (AsmKind::UnknownField, b"refused s line 12 UnknownField\n"),
    (AsmKind::FieldValue, b"refused s line 12 FieldValue\n"),
    (AsmKind::UnknownFlow, b"refused s line 12 UnknownFlow\n"),
    (AsmKind::TargetCount, b"refused s line 12 TargetCount\n"),
    (AsmKind::NoTarget, b"refused s line 12 NoTarget\n"),
    (AsmKind::Empty, b"refused s line 12 Empty\n"),
    (AsmKind::NoStart, b"refused s line 12 NoStart\n"),
    (AsmKind::UnknownLabel, b"refused s line 12 UnknownLabel\n"),
];

/// How line 12 of the script `s` is refused for each reason.
const SCRIPT_TEXTS: [(ScriptKind, &[u8]); 10] = [
    (ScriptKind::BadByte(3), b"refused s line 12 BadByte col 3\n"),
    (
        ScriptKind::BadNumber(5),
        b"refused s line 12 BadNumber col 5\n",
    ),
    (
        ScriptKind::NumberTooWide(7),
        b"refused s line 12 NumberTooWide col 7\n",
    ),
    (
        ScriptKind::NameTooLong(1),
        b"refused s line 12 NameTooLong col 1\n",
    ),
    (ScriptKind::Lines, b"refused s line 12 Lines\n"),
    (ScriptKind::Word, b"refused s line 12 Word\n"),
    (ScriptKind::Shape, b"refused s line 12 Shape\n"),
    (ScriptKind::Value, b"refused s line 12 Value\n"),
    (ScriptKind::Twice, b"refused s line 12 Twice\n"),
    (ScriptKind::Key, b"refused s line 12 Key\n"),
];

#[test]
fn each_reason_of_a_source_line_has_its_text(rt: HostRuntime) {
    for (kind, text) in &ASM_TEXTS {
        let stop = refuse_asm(rt.alloc(), "s", 12, *kind);
        assert!(rt; says(rt.alloc(), stop, Status::Input, text), "{kind:?}");
    }
}

#[test]
fn each_reason_of_a_script_line_has_its_text(rt: HostRuntime) {
    for (kind, text) in &SCRIPT_TEXTS {
        let stop = refuse_script(rt.alloc(), "s", 12, *kind);
        assert!(rt; says(rt.alloc(), stop, Status::Input, text), "{kind:?}");
    }
}
