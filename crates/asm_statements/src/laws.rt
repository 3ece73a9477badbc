// A law of the definitions alone, so its function does nothing.

ghost use Rattle.std.specs.Prelude.{◌≡◌, Some};
ghost use Rattle.rv_decode.specs.declared.instruction.BranchOp.{BranchOp};
ghost use Rattle.rv_decode.specs.declared.instruction.LoadOp.{LoadOp};
ghost use Rattle.rv_decode.specs.declared.instruction.StoreOp.{StoreOp};
ghost use Rattle.rv_decode.specs.declared.instruction.ImmOp.{ImmOp};
ghost use Rattle.rv_decode.specs.declared.instruction.ShiftOp.{ShiftOp};
ghost use Rattle.rv_decode.specs.declared.instruction.RegOp.{RegOp};
ghost use Rattle.rv_decode.specs.declared.instruction.MulOp.{MulOp};
ghost use Rattle.rv_decode.specs.Names.{branch_name, load_name, store_name, imm_name, shift_name, reg_name, mul_name};
ghost use Rattle.asm_statements.specs.declared.forms.Binary.TheVariants as binary;
ghost use Rattle.asm_statements.specs.declared.forms.Ternary.TheVariants as ternary;
ghost use Rattle.asm_statements.specs.declared.forms.Form.TheVariants as forms;
ghost use Rattle.asm_statements.specs.Forms.{statement_form};

/// The statement that begins with an operation's mnemonic is the one of this operation: so what a listing shows is what
/// the assembler reads.
pub fn mnemonics_are_read()
    ensures branches { (op : BranchOp) → statement_form (branch_name op) ≡ Some (forms.Ternary (ternary.Branch op)) }
    ensures loads { (op : LoadOp) → statement_form (load_name op) ≡ Some (forms.Binary (binary.Load op)) }
    ensures stores { (op : StoreOp) → statement_form (store_name op) ≡ Some (forms.Binary (binary.Store op)) }
    ensures immediates { (op : ImmOp) → statement_form (imm_name op) ≡ Some (forms.Ternary (ternary.Imm op)) }
    ensures shifts { (op : ShiftOp) → statement_form (shift_name op) ≡ Some (forms.Ternary (ternary.Shift op)) }
    ensures registers { (op : RegOp) → statement_form (reg_name op) ≡ Some (forms.Ternary (ternary.Reg op)) }
    ensures products { (op : MulOp) → statement_form (mul_name op) ≡ Some (forms.Ternary (ternary.Mul op)) }
{}
