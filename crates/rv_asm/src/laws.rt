// Laws of the definitions alone, so their functions do nothing.

ghost use Rattle.std.specs.Prelude.{◌≡◌, ℕ, ◌<◌, ◌^◌, List, ◌∷◌, ◌++◌, Option, Some, Ok};
ghost use Rattle.executable.specs.declared.Program.{Program};
ghost use Rattle.executable.specs.Writable.{IsWritable};
ghost use Rattle.rv_decode.specs.declared.instruction.Instr.{Instr};
ghost use Rattle.rv_decode.specs.Words.{word_of};
ghost use Rattle.asm_lines.specs.Cuts.{StatementWords, parse_line};
ghost use Rattle.rv_asm.specs.Assembled.{assembled};
ghost use Rattle.rv_asm.specs.First.{Place, start, labelled_line, first_lines};
ghost use Rattle.rv_asm.specs.Second.{Output, nothing, next_address, second_lines};
ghost use Rattle.rv_asm.specs.Shown.{text_of, shown_text, one_statement, one_word_program};

/// The text that a listing has of an instruction, and that of any word, gives the word again, as the only statement of
/// a program.
pub fn shown_texts_assemble()
    ensures instr { (instr : Instr) (word : ℕ) → word_of instr ≡ Some word
        → assembled (one_statement (text_of instr)) ≡ Ok (one_word_program word) }
    ensures word { (word : ℕ) → word < 2 ^ 32 → assembled (one_statement (shown_text word)) ≡ Ok (one_word_program word) }
{}

/// What the assembler gives can be written as an ELF file: there are 1 to 64 segments of at most 1,048,576 bytes
/// together, and each ends at `2^32` at most.
pub fn programs_can_be_written()
    ensures { (text : List ℕ) (p : Program) → assembled text ≡ Ok p → IsWritable p }
{}

/// A label's address is where its line's bytes are: the address of the next byte after the lines before it.
pub fn labels_stand_at_their_bytes()
    ensures { (before : List (List ℕ)) (line : List ℕ) (after : List (List ℕ)) (name : List ℕ) (statement : Option StatementWords) (place : Place) (output : Output)
        → first_lines start 1 (before ++ line ∷ after) ≡ Ok place → second_lines place.labels nothing 1 before ≡ Ok output
        → parse_line line ≡ Some (labelled_line name statement) → place.labels name ≡ Some (next_address output.here) }
{}
