//! The statements by their words.
ghost use Rattle.std.specs.Prelude.{◌≡◌};
ghost use Rattle.rv_asm.specs.Forms.{form_of};

use crate::names::first_byte;
use text_parts::lookup;

/// The instructions with rd, rs1, rs2.
#[derive(Clone, Copy)]
pub enum RegisterInsn {
    Add,
    Sub,
    Sll,
    Slt,
    Sltu,
    Xor,
    Srl,
    Sra,
    Or,
    And,
}

/// The instructions with rd, rs1 and a number of twelve bits.
#[derive(Clone, Copy)]
pub enum NumberInsn {
    Addi,
    Slti,
    Sltiu,
    Xori,
    Ori,
    Andi,
}

/// The instructions with rd, rs1 and a number of bits.
#[derive(Clone, Copy)]
pub enum ShiftInsn {
    Slli,
    Srli,
    Srai,
}

/// The instructions with rd and number(rs1).
#[derive(Clone, Copy)]
pub enum LoadInsn {
    Lb,
    Lh,
    Lw,
    Lbu,
    Lhu,
    Jalr,
}

/// The instructions with rs2 and number(rs1).
#[derive(Clone, Copy)]
pub enum StoreInsn {
    Sb,
    Sh,
    Sw,
}

/// The instructions with rs1, rs2 and a label.
#[derive(Clone, Copy)]
pub enum BranchInsn {
    Beq,
    Bne,
    Blt,
    Bge,
    Bltu,
    Bgeu,
}

/// The instructions with rd and a number of twenty bits.
#[derive(Clone, Copy)]
pub enum UpperInsn {
    Lui,
    Auipc,
}

/// The instructions with no operands.
#[derive(Clone, Copy)]
pub enum BareInsn {
    Fence,
    Ecall,
    Ebreak,
}

/// What operands a statement takes, and which instruction it is where several take the same.
#[derive(Clone, Copy)]
pub enum Form {
    Registers(RegisterInsn),
    Number(NumberInsn),
    Shift(ShiftInsn),
    Load(LoadInsn),
    Store(StoreInsn),
    Branch(BranchInsn),
    Upper(UpperInsn),
    Bare(BareInsn),
    JumpAndLink,
    LoadNumber,
    LoadAddress,
    Jump,
    Move,
    Word,
    Ascii,
}

// The words that begin with one letter each, and the others. Those that programs use most come first.
const A_FORMS: [(&[u8], Form); 5] = [
    (b"addi", Form::Number(NumberInsn::Addi)),
    (b"andi", Form::Number(NumberInsn::Andi)),
    (b"add", Form::Registers(RegisterInsn::Add)),
    (b"and", Form::Registers(RegisterInsn::And)),
    (b"auipc", Form::Upper(UpperInsn::Auipc)),
];

const B_FORMS: [(&[u8], Form); 6] = [
    (b"beq", Form::Branch(BranchInsn::Beq)),
    (b"bne", Form::Branch(BranchInsn::Bne)),
    (b"blt", Form::Branch(BranchInsn::Blt)),
    (b"bge", Form::Branch(BranchInsn::Bge)),
    (b"bltu", Form::Branch(BranchInsn::Bltu)),
    (b"bgeu", Form::Branch(BranchInsn::Bgeu)),
];

const J_FORMS: [(&[u8], Form); 3] = [
    (b"j", Form::Jump),
    (b"jalr", Form::Load(LoadInsn::Jalr)),
    (b"jal", Form::JumpAndLink),
];

const L_FORMS: [(&[u8], Form); 8] = [
    (b"li", Form::LoadNumber),
    (b"la", Form::LoadAddress),
    (b"lw", Form::Load(LoadInsn::Lw)),
    (b"lb", Form::Load(LoadInsn::Lb)),
    (b"lh", Form::Load(LoadInsn::Lh)),
    (b"lbu", Form::Load(LoadInsn::Lbu)),
    (b"lhu", Form::Load(LoadInsn::Lhu)),
    (b"lui", Form::Upper(UpperInsn::Lui)),
];

const S_FORMS: [(&[u8], Form); 14] = [
    (b"sw", Form::Store(StoreInsn::Sw)),
    (b"sb", Form::Store(StoreInsn::Sb)),
    (b"sh", Form::Store(StoreInsn::Sh)),
    (b"slti", Form::Number(NumberInsn::Slti)),
    (b"sltiu", Form::Number(NumberInsn::Sltiu)),
    (b"sub", Form::Registers(RegisterInsn::Sub)),
    (b"sll", Form::Registers(RegisterInsn::Sll)),
    (b"slt", Form::Registers(RegisterInsn::Slt)),
    (b"sltu", Form::Registers(RegisterInsn::Sltu)),
    (b"srl", Form::Registers(RegisterInsn::Srl)),
    (b"sra", Form::Registers(RegisterInsn::Sra)),
    (b"slli", Form::Shift(ShiftInsn::Slli)),
    (b"srli", Form::Shift(ShiftInsn::Srli)),
    (b"srai", Form::Shift(ShiftInsn::Srai)),
];

const OTHER_FORMS: [(&[u8], Form); 10] = [
    (b"mv", Form::Move),
    (b".word", Form::Word),
    (b".ascii", Form::Ascii),
    (b"ecall", Form::Bare(BareInsn::Ecall)),
    (b"ebreak", Form::Bare(BareInsn::Ebreak)),
    (b"fence", Form::Bare(BareInsn::Fence)),
    (b"xori", Form::Number(NumberInsn::Xori)),
    (b"ori", Form::Number(NumberInsn::Ori)),
    (b"xor", Form::Registers(RegisterInsn::Xor)),
    (b"or", Form::Registers(RegisterInsn::Or)),
];

/// The form of the statement with this word.
pub fn form_named(word: &[u8]) -> Option<Form>
    ensures { result ≡ form_of word.now }
{
    let first = first_byte(word);
    if first == b'a' {
        lookup(&A_FORMS, word)
    } else if first == b's' {
        lookup(&S_FORMS, word)
    } else if first == b'l' {
        lookup(&L_FORMS, word)
    } else if first == b'b' {
        lookup(&B_FORMS, word)
    } else if first == b'j' {
        lookup(&J_FORMS, word)
    } else {
        lookup(&OTHER_FORMS, word)
    }
}
