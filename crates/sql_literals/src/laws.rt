//! Laws of the definitions, for crates that stand on this one.
ghost use Rattle.std.specs.Prelude.{ℕ, List, IsTrue, IfSome, ◌↔◌};
ghost use Rattle.hex.specs.Hex.{IsBytes};
ghost use Rattle.plain_data.specs.Cell.{Cell};
ghost use Rattle.sql_cells.specs.Literal.{has_literal};
ghost use Rattle.sql_cells.specs.Number.{is_number, Number};
ghost use Rattle.sql_cells.specs.Spelling.{IsReadBack};
ghost use Rattle.sql_cells.specs.declared.cell_kind.CellKind.{CellKind};

/// The test `is_number` takes exactly the texts of the grammar `Number`.
pub fn numbers_are_of_the_grammar()
    ensures { (bytes : List ℕ) → IsTrue (is_number bytes) ↔ Number bytes }
{}

/// What is written for a cell is a literal that spells that cell, as the kind that was asked for,
/// and it is the longest literal in front where nothing, a comma or a closing parenthesis follows.
/// So no value, whatever its bytes, ends its quotes early: what stands after the literal is never
/// taken for a part of the value, and nothing of the value for what stands after.
pub fn what_is_written_is_read_back()
    ensures { (kind : CellKind) (cell : Cell) →
        IsTrue (has_literal kind cell) → IfSome cell IsBytes → IsReadBack kind cell }
{}
