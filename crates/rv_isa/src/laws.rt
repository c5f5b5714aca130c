//! Laws of the instruction table.
ghost use Rattle.std.specs.Prelude.{◌≡◌, length};
ghost use Rattle.rv_isa.specs.Table.{table, NoWordFitsTwo, EachRowDecides, NoRowNoInstruction, EachRowHasAWord, OneWordForAnInstruction};

/// The table has 60 rows, and each word fits at most one of them: so the order of the rows says
/// nothing, and a word stands for the instruction of the row that it fits.
pub fn one_row_for_a_word()
    ensures count { length table ≡ 60 }
    ensures within { EachRowHasAWord }
    ensures apart { NoWordFitsTwo }
    ensures decides { EachRowDecides }
    ensures others { NoRowNoInstruction }
{}

/// No two words of 32 bits decode to one instruction, but for the fences.
pub fn one_word_for_an_instruction()
    ensures { OneWordForAnInstruction }
{}
