//! What the definitions say of one another.
ghost use Rattle.std.specs.Prelude.{◌≡◌, ◌↔◌, ◌++◌, IsTrue, List, ℕ, length, false};
ghost use Rattle.std.specs.List.{list_any};
ghost use Rattle.orb_bytes.specs.declared.rows.Row.{Row as ARow};
ghost use Rattle.orb_bytes.specs.Rows.{begins_masked, BeginsByPlace, first_matched, is_open};

/// Law: a text begins with bytes under a mask exactly where each of their places agrees.
pub fn masked_is_by_place()
    ensures { (bytes mask text : List ℕ) → length mask ≡ length bytes
        → IsTrue (begins_masked bytes mask text) ↔ BeginsByPlace bytes mask text }
{}

/// Law: where no row is open, the row that a text matches first stays the same, whatever follows.
pub fn closed_rows_stay()
    ensures { (rows : List ARow) (text more : List ℕ) → list_any (is_open text) rows ≡ false
        → first_matched rows (text ++ more) ≡ first_matched rows text }
{}
