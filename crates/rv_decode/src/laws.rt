// The laws of words and instructions. Each is a fact about the definitions alone, so its function does nothing.

ghost use Rattle.std.specs.Prelude.{◌≡◌, ℕ, ◌<◌, ◌^◌, ◌↔◌, Some, IsTrue};
ghost use Rattle.rv_decode.specs.declared.instruction.Instr.{Instr};
ghost use Rattle.rv_decode.specs.Fields.{opcode, funct3, funct7, rest};
ghost use Rattle.rv_decode.specs.Table.{Row, fixed, has_fixed, row_of};
ghost use Rattle.rv_decode.specs.Words.{instr_row, word_of, instr_of};

/// A word has a row exactly where it has what the row fixes: no word fits two rows, so their order in the table
/// means nothing.
pub fn rows_are_apart()
    ensures { (row : Row) (word : ℕ) → (row_of word ≡ Some row)
        ↔ IsTrue (has_fixed (fixed row) (opcode word) (funct3 word) (funct7 word) (rest word)) }
{}

/// The word of an instruction and the instruction of a word are the same relation, from either side.
pub fn words_and_instructions()
    ensures word { (instr : Instr) (word : ℕ) → word_of instr ≡ Some word
        → (word < 2 ^ 32) × (instr_of word ≡ Some instr) }
    ensures instr { (instr : Instr) (word : ℕ) → word < 2 ^ 32 → instr_of word ≡ Some instr
        → word_of instr ≡ Some word }
    // Its row is the word's.
    ensures row { (instr : Instr) (word : ℕ) → instr_of word ≡ Some instr
        → row_of word ≡ Some (instr_row instr) }
{}

/// No two instructions have one word.
pub fn words_are_apart()
    ensures { (a b : Instr) (word : ℕ) → word_of a ≡ Some word → word_of b ≡ Some word → a ≡ b }
{}
