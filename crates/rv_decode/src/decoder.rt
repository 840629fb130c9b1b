//! Decoding of 32-bit instruction words.
ghost use Rattle.std.specs.Prelude.{◌≡◌, ◌++◌, ◌⊎◌, bit_and, option_map, false, true, IfSome, IfNone, Some};
ghost use Rattle.rv_model.specs.declared.instructions.operations.Form.TheVariants as form;
ghost use Rattle.rv_model.specs.instructions.Table.{word_of, Row, IsRow, scan, table};
ghost use Rattle.rv_decode.specs.Groups.{rows_where, is_other_operation_instr, is_unit_stride, is_other_access, is_csr};
ghost use Rattle.rv_decode.specs.Opcodes.{IsKind, is_scalar};
ghost use Rattle.rv_model.specs.lending.OtherOperations.{is_other_operation};
ghost use Rattle.rv_model.specs.lending.Families.{rows, RegisterImmediates, ShiftImmediates, ShiftImmediateWords};
ghost use Rattle.rv_model.specs.lending.Families.{SetVlis, SetIvlis, SetVls, Carries, Moves, WholeMoves};
ghost use Rattle.rv_model.specs.lending.Families.{MaskLogics, Compresses, MasksToScalar, Extends, MaskUnaries};
ghost use Rattle.rv_model.specs.lending.Families.{ElementIndices, MovesToScalar, Strideds, Indexeds, WholeLoads};
ghost use Rattle.rv_model.specs.lending.Families.{WholeStores, MaskMemories};

use crate::scalar::{
    branch, csr, csr_immediate, fence, jump, jump_register, load, register_immediate,
    register_register, shift_immediate, shift_immediate_word, store, system, upper,
};
use crate::vector::{
    arith, carry, compress, element_index, extend, mask_logic, mask_to_scalar, mask_unary,
    move_to_scalar, move_to_vector, set_ivli, set_vl, set_vli, vector_move, whole_move,
};
use crate::vector_memory::{indexed, mask_memory, strided, unit, whole_load, whole_store};
use rv_model::instructions::operations::{Form, Major, SystemOp};
use rv_model::{AccessInstr, ArithOperation, CsrInstr, Instr, ScalarInstr, VectorInstr};

/// Decode a word of OP-IMM.
#[tactic(auto, using(rv_model::proofs::instruction_lemmas::Scans::scan_append))]
#[inline(always)]
fn immediates(word: u32) -> Option<ScalarInstr>
    ensures row { option_map Instr.Scalar result ≡ scan (rows RegisterImmediates ++ rows ShiftImmediates) word }
    ensures group { IfSome result (λ i. is_scalar i ≡ true) }
{
    if let Some(instr) = register_immediate(word) {
        return Some(instr);
    }
    shift_immediate(word)
}

/// Decode a word of OP-IMM-32.
#[tactic(auto, using(rv_model::proofs::instruction_lemmas::Scans::scan_append))]
#[inline(always)]
fn word_immediates(word: u32) -> Option<ScalarInstr>
    ensures row { option_map Instr.Scalar result ≡ scan (rows RegisterImmediates ++ rows ShiftImmediateWords) word }
    ensures group { IfSome result (λ i. is_scalar i ≡ true) }
{
    if let Some(instr) = register_immediate(word) {
        return Some(instr);
    }
    shift_immediate_word(word)
}

/// Decode a word of OP-V to an operation of the funct6 table. Return `None` for any other word. funct3 selects the
/// half of the table and the form of the second operand.
#[tactic(auto, using(crate::proofs::Groups::table_operation_steps))]
#[inline(always)]
pub fn decode_table_operation(word: u32) -> Option<ArithOperation>
    requires { bit_and word 0x7c ≡ 0x54 }
    ensures some { IfSome result (λ o. scan table word
        ≡ Some (Instr.Vector (VectorInstr.Arith o.arith o.vd o.vs2 o.unmasked))) }
    ensures none { IfNone result (scan table word ≡ scan (rows_where is_other_operation_instr) word) }
{
    match word & 0x707f {
        0x0057 => arith(word, Major::Opi, Form::V),
        0x2057 => arith(word, Major::Opm, Form::V),
        0x3057 => arith(word, Major::Opi, Form::I),
        0x4057 => arith(word, Major::Opi, Form::X),
        0x6057 => arith(word, Major::Opm, Form::X),
        0x7057 => None,
        _ => None,
    }
}

/// Decode carries and moves of OPIVV, OPIVX and OPIVI, except moves of whole registers.
#[tactic(auto, using(rv_model::proofs::instruction_lemmas::Scans::scan_append))]
fn carry_or_move(word: u32, form: Form) -> Option<VectorInstr>
    ensures row { option_map Instr.Vector result
        ≡ scan (rows (Carries form) ++ rows (Moves form)) word }
    ensures group { IfSome result (λ i. is_other_operation i ≡ true) }
{
    if let Some(instr) = carry(word, form) {
        return Some(instr);
    }
    vector_move(word, form)
}

/// Decode carries and moves of OPIVI, including moves of whole registers.
#[tactic(auto, using(rv_model::proofs::instruction_lemmas::Scans::scan_append))]
fn immediate(word: u32) -> Option<VectorInstr>
    ensures row { option_map Instr.Vector result
        ≡ scan (rows (Carries form.I) ++ rows (Moves form.I) ++ rows WholeMoves) word }
    ensures group { IfSome result (λ i. is_other_operation i ≡ true) }
{
    if let Some(instr) = carry_or_move(word, Form::I) {
        return Some(instr);
    }
    whole_move(word)
}

/// Decode VWXUNARY0: an operation that writes a scalar register.
#[tactic(auto, using(rv_model::proofs::instruction_lemmas::Scans::scan_append))]
fn scalar_result(word: u32) -> Option<VectorInstr>
    ensures row { option_map Instr.Vector result ≡ scan (rows MasksToScalar ++ rows MovesToScalar) word }
    ensures group { IfSome result (λ i. is_other_operation i ≡ true) }
{
    if let Some(instr) = mask_to_scalar(word) {
        return Some(instr);
    }
    move_to_scalar(word)
}

/// Decode VMUNARY0: an operation on one mask, or `vid.v`.
#[tactic(auto, using(rv_model::proofs::instruction_lemmas::Scans::scan_append))]
fn mask_or_index(word: u32) -> Option<VectorInstr>
    ensures row { option_map Instr.Vector result ≡ scan (rows MaskUnaries ++ rows ElementIndices) word }
    ensures group { IfSome result (λ i. is_other_operation i ≡ true) }
{
    if let Some(instr) = mask_unary(word) {
        return Some(instr);
    }
    element_index(word)
}

/// Decode an operation of OPMVV outside of the funct6 table, by funct6.
#[tactic(auto, using(crate::proofs::Groups::mask_steps))]
fn mask_or_unary(word: u32) -> Option<VectorInstr>
    ensures row { option_map Instr.Vector result
        ≡ scan
        (rows MaskLogics ++ rows Compresses ++ rows MasksToScalar ++ rows Extends
        ++ rows MaskUnaries ++ rows ElementIndices ++ rows MovesToScalar)
        word }
    ensures group { IfSome result (λ i. is_other_operation i ≡ true) }
{
    match word & 0xfc00_0000 {
        0x4000_0000 => scalar_result(word),
        0x4800_0000 => extend(word),
        0x5000_0000 => mask_or_index(word),
        0x5c00_0000 => compress(word),
        _ => mask_logic(word),
    }
}

/// Decode OPCFG: `vsetvli`, `vsetivli` or `vsetvl`.
#[tactic(auto, using(rv_model::proofs::instruction_lemmas::Scans::scan_append))]
fn set_vector_length(word: u32) -> Option<VectorInstr>
    ensures row { option_map Instr.Vector result ≡ scan (rows SetVlis ++ rows SetIvlis ++ rows SetVls) word }
    ensures group { IfSome result (λ i. is_other_operation i ≡ true) }
{
    if let Some(instr) = set_vli(word) {
        return Some(instr);
    }
    if let Some(instr) = set_ivli(word) {
        return Some(instr);
    }
    set_vl(word)
}

/// Decode a word of OP-V to an operation outside of the funct6 table: one for which `decode_table_operation` returns
/// `None`. Return `None` if the word isn't one of these.
#[tactic(auto, using(crate::proofs::Groups::other_operation_steps))]
#[inline(always)]
pub fn decode_other_operation(word: u32) -> Option<VectorInstr>
    requires { bit_and word 0x7c ≡ 0x54 }
    ensures row { option_map Instr.Vector result ≡ scan (rows_where is_other_operation_instr) word }
    ensures group { IfSome result (λ i. is_other_operation i ≡ true) }
{
    match word & 0x707f {
        0x0057 => carry_or_move(word, Form::V),
        0x2057 => mask_or_unary(word),
        0x3057 => immediate(word),
        0x4057 => carry_or_move(word, Form::X),
        0x6057 => move_to_vector(word),
        0x7057 => set_vector_length(word),
        _ => None,
    }
}

/// Return whether funct6 of a word of OP-V excludes all operations of the funct6 table. If the result is false,
/// only `decode_table_operation` decides.
#[tactic(auto, using(crate::proofs::Groups::funct6_steps))]
#[inline(always)]
pub fn has_funct6_outside_table(word: u32) -> bool
    requires { bit_and word 0x7c ≡ 0x54 }
    ensures { result ≡ true → scan table word ≡ scan (rows_where is_other_operation_instr) word }
{
    // The top three bits of these funct6 are 010, and those of most operations aren't.
    if word >> 29 != 0b010 {
        return false;
    }
    match word & 0xfc00_0000 {
        0x4000_0000 => true,
        0x4800_0000 => true,
        0x5000_0000 => true,
        0x5c00_0000 => true,
        _ => false,
    }
}

/// Return whether a word of LOAD-FP or STORE-FP may only be a unit-stride access whose number of elements is vl, by
/// mop and by lumop or sumop.
#[tactic(auto, using(crate::proofs::Groups::unit_steps))]
#[inline(always)]
pub fn is_unit_stride(word: u32) -> bool
    requires { (bit_and word 0x7c ≡ 0x04) ⊎ (bit_and word 0x7c ≡ 0x24) }
    ensures units { result ≡ true → scan table word ≡ scan (rows_where is_unit_stride) word }
    ensures others { result ≡ false → scan table word ≡ scan (rows_where is_other_access) word }
{
    word & 0x0c80_0000 == 0
}

/// Decode a unit-stride load or store. Return `None` for any other word.
#[tactic(auto, using(crate::proofs::Groups::units))]
#[inline(always)]
pub fn decode_unit_stride(word: u32) -> Option<AccessInstr>
    ensures { option_map Instr.Access result ≡ scan (rows_where is_unit_stride) word }
{
    unit(word)
}

/// Whether mop restricts a word, which isn't a unit-stride access, to loads and stores of whole registers or of a
/// mask.
#[tactic(auto, using(crate::proofs::Groups::register_steps))]
#[inline(always)]
fn is_register_access(word: u32) -> bool
    ensures registers { result ≡ true → scan (rows_where is_other_access) word
        ≡ scan (rows WholeLoads ++ rows WholeStores ++ rows MaskMemories) word }
    ensures elements { result ≡ false
        → scan (rows_where is_other_access) word ≡ scan (rows Strideds ++ rows Indexeds) word }
{
    word & 0x0c00_0000 == 0
}

/// Decode a load or store of whole registers or of a mask.
#[tactic(auto, using(rv_model::proofs::instruction_lemmas::Scans::scan_append))]
#[inline(always)]
fn decode_registers(word: u32) -> Option<AccessInstr>
    ensures { option_map Instr.Access result ≡ scan (rows WholeLoads ++ rows WholeStores ++ rows MaskMemories) word }
{
    if let Some(instr) = whole_load(word) {
        return Some(instr);
    }
    if let Some(instr) = whole_store(word) {
        return Some(instr);
    }
    mask_memory(word)
}

/// Decode a strided or indexed load or store.
#[tactic(auto, using(rv_model::proofs::instruction_lemmas::Scans::scan_append))]
#[inline(always)]
fn decode_strided_or_indexed(word: u32) -> Option<AccessInstr>
    ensures { option_map Instr.Access result ≡ scan (rows Strideds ++ rows Indexeds) word }
{
    if let Some(instr) = strided(word) {
        return Some(instr);
    }
    indexed(word)
}

/// Decode a load or store other than a unit-stride access. Return `None` for any other word.
#[inline(always)]
pub fn decode_other_access(word: u32) -> Option<AccessInstr>
    ensures { option_map Instr.Access result ≡ scan (rows_where is_other_access) word }
{
    if is_register_access(word) {
        decode_registers(word)
    } else {
        decode_strided_or_indexed(word)
    }
}

/// Decode a word of OP-V.
fn operation(word: u32) -> Option<Instr>
    requires { bit_and word 0x7c ≡ 0x54 }
    ensures { result ≡ scan table word }
{
    if let Some(operation) = decode_table_operation(word) {
        return Some(Instr::Vector(VectorInstr::Arith {
            arith: operation.arith,
            vd: operation.vd,
            vs2: operation.vs2,
            vm: operation.unmasked,
        }));
    }
    Some(Instr::Vector(decode_other_operation(word)?))
}

/// Decode a word of LOAD-FP or STORE-FP to a vector load or store.
fn access(word: u32) -> Option<Instr>
    requires { (bit_and word 0x7c ≡ 0x04) ⊎ (bit_and word 0x7c ≡ 0x24) }
    ensures { result ≡ scan table word }
{
    if is_unit_stride(word) {
        return Some(Instr::Access(decode_unit_stride(word)?));
    }
    Some(Instr::Access(decode_other_access(word)?))
}

/// Decode a word of SYSTEM to `ecall` or `ebreak`. Return `None` for any other word.
#[tactic(auto, using(crate::proofs::Groups::call_steps))]
#[inline(always)]
pub fn decode_call(word: u32) -> Option<SystemOp>
    requires { bit_and word 0x7c ≡ 0x70 }
    ensures some { IfSome result (λ op. scan table word ≡ Some (Instr.Scalar (ScalarInstr.System op))) }
    ensures none { IfNone result (scan table word ≡ scan (rows_where is_csr) word) }
{
    system(word)
}

/// Decode a word of SYSTEM, for which `decode_call` returns `None`, to an instruction that accesses a control
/// register. Return `None` for any other word.
#[tactic(auto, using(crate::proofs::Groups::csrs, rv_model::proofs::instruction_lemmas::Scans::scan_append))]
#[inline(always)]
pub fn decode_csr(word: u32) -> Option<CsrInstr>
    requires { scan table word ≡ scan (rows_where is_csr) word }
    ensures { option_map Instr.Csr result ≡ scan table word }
{
    if let Some(instr) = csr(word) {
        return Some(instr);
    }
    csr_immediate(word)
}

/// Decode a word of SYSTEM.
fn call_or_csr(word: u32) -> Option<Instr>
    requires { bit_and word 0x7c ≡ 0x70 }
    ensures { result ≡ scan table word }
{
    if let Some(op) = decode_call(word) {
        return Some(Instr::Scalar(ScalarInstr::System { op }));
    }
    Some(Instr::Csr(decode_csr(word)?))
}

/// The kind of instruction that the opcode of a word selects. `Scalar` is a decoded scalar instruction other than
/// `ecall` and `ebreak`. `Access`, `Operation` and `System` are words of LOAD-FP or STORE-FP, of OP-V and of
/// SYSTEM, which other functions decode. `Unknown` is no instruction.
#[derive(Clone, Copy)]
pub enum Kind {
    Scalar(ScalarInstr),
    Access,
    Operation,
    System,
    Unknown,
}

/// Classify a word by bits 6 to 2 of its opcode. Bits 1 and 0 are ones in each instruction. The patterns list all
/// values, so that the compiler emits no range check.
#[tactic(auto, using(crate::proofs::Scan::opcode_steps))]
#[inline(always)]
pub fn kind_of(word: u32) -> Kind
    ensures { IsKind word result }
{
    let scalar = match word & 0x7c {
        0x04 | 0x24 => return Kind::Access,
        0x54 => return Kind::Operation,
        0x70 => return Kind::System,
        0x00 => load(word),
        0x0c => fence(word),
        0x10 => immediates(word),
        0x14 | 0x34 => upper(word),
        0x18 => word_immediates(word),
        0x20 => store(word),
        0x30 | 0x38 => register_register(word),
        0x60 => branch(word),
        0x64 => jump_register(word),
        0x6c => jump(word),
        0x08
        | 0x1c
        | 0x28
        | 0x2c
        | 0x3c
        | 0x40
        | 0x44
        | 0x48
        | 0x4c
        | 0x50
        | 0x58
        | 0x5c
        | 0x68
        | 0x74
        | 0x78
        | 0x7c => None,
        _ => None,
    };
    match scalar {
        Some(instr) => Kind::Scalar(instr),
        None => Kind::Unknown,
    }
}

/// Decode a word by its opcode.
#[inline(always)]
fn by_opcode(word: u32) -> Option<Instr>
    ensures { result ≡ scan table word }
{
    match kind_of(word) {
        Kind::Scalar(instr) => Some(Instr::Scalar(instr)),
        Kind::Access => access(word),
        Kind::Operation => operation(word),
        Kind::System => call_or_csr(word),
        Kind::Unknown => None,
    }
}

/// Decode an instruction word. Return the instruction of the only row of the instruction table that the word
/// matches, or `None` if there is no such row.
#[inline(never)]
pub fn decode(word: u32) -> Option<Instr>
    ensures row { result ≡ scan table word }
    ensures word { IfSome result (λ i. word_of i ≡ word) }
    ensures found { IfSome result (λ i. (r : Row) × IsRow word r × (r.instr word ≡ i)) }
    ensures none { IfNone result ((r : Row) → IsRow word r → ⊥) }
{
    by_opcode(word)
}
