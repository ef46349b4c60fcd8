//! What is said of each rule.
ghost use Rattle.std.specs.Prelude.{◌≡◌};
ghost use Rattle.refusal_text.specs.Texts.{asm_rule_text as asm_rule_text_of, system_rule_text as system_rule_text_of};

/// What is wrong with a line of a system text that breaks this rule.
#[tactic(auto, unfolding(crate::specs::Texts::system_rule_text))]
pub fn system_rule_text(rule: u8) -> &'static str
    ensures { result.now ≡ system_rule_text_of rule }
{
    match rule {
        1 => "it has a byte outside 0x20 to 0x7E, shown as ?",
        2 => "no line with this first field may stand here",
        3 => "it has too few or too many fields",
        4 => "a field is no number, name, word or mode where one must stand",
        5 => "a number is outside its limit",
        6 => "its two clusters or its two roots are the same",
        7 => "its image name is used twice, or its image or root is not there",
        8 =>
            "it has more words, processes or ends than there is room for, or not the words of its file",
        9 => "the assembler refuses it",
        10 => "the text ends before its first root, or inside a block",
        11 => "its file is too short, or does not begin as an ELF file",
        12 => "its file has numbers that are not of 32 bits, lowest byte first",
        13 => "its file is no executable for RISC-V",
        14 => "its file has compressed code",
        15 =>
            "the table of program headers is not in its file, or has rows that are not of 32 bytes",
        16 => "its file is to be linked when it is loaded",
        17 => "a segment of its file has more bytes than memory, or bytes that are not in the file",
        18 => "a segment of its file is not in memory",
        19 => "two segments of its file have a byte of memory in common",
        _ =>
            "the first instruction of its file is not in memory, or has an address that is no multiple of 4",
    }
}

/// What is wrong with a line of an assembler text that breaks this rule.
#[tactic(auto, unfolding(crate::specs::Texts::asm_rule_text))]
pub fn asm_rule_text(rule: u8) -> &'static str
    ensures { result.now ≡ asm_rule_text_of rule }
{
    match rule {
        1 => "it has a byte outside 0x20 to 0x7E, shown as ?",
        2 => "no statement has this word",
        3 => "its operands are not those of the statement, or its label is no name",
        4 => "a number is outside its range",
        5 => "an earlier line defines the same label",
        6 => "no line defines the label that it names",
        7 => "the label is too far from the branch or the jump",
        _ => "the program is longer than 16384 words",
    }
}
