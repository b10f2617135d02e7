ghost use Rattle.std.specs.Prelude.{ℕ, ◌<◌, ◌^◌, [], ◌∷◌, ◌++◌, Result};
ghost use Rattle.vx_asm.specs.Assembling.{Assembles};
ghost use Rattle.vx_asm.specs.GivingBack.{GivesBack};
ghost use Rattle.vx_asm.specs.declared.asm_fault.AsmFault.{AsmFault};
ghost use Rattle.vx_elf.specs.declared.program.Program.{Program};
ghost use Rattle.vx_language.specs.Bytes.{newline};
ghost use Rattle.vx_source.specs.Lines.{line_of};

use vx_lines::lines_are_sources;

/// What `assemble` answers to the canonical line of a word gives that word back, with a newline behind the line or without.
pub fn lines_give_words_back()
    ensures bare { (word : ℕ) (answer : Result Program AsmFault) → word < 2 ^ 32 → Assembles (line_of word) answer → GivesBack word answer }
    ensures ended { (word : ℕ) (answer : Result Program AsmFault) → word < 2 ^ 32 → Assembles (line_of word ++ newline ∷ []) answer → GivesBack word answer }
{
    lines_are_sources();
}
