//! What the definitions say of one another.
ghost use Rattle.std.specs.Prelude.{◌≡◌, ◌≤◌, ◌+◌, ◌*◌, ◌++◌, ℕ, List, [], Bool, true, false, length};
ghost use Rattle.orb_io.specs.Told.{IsPrefix};
ghost use Rattle.response_rules.specs.Settled.{is_hopeless, is_in_text};
ghost use Rattle.body_filter.specs.Responses.{Response, output_so_far, whole_output, held_of};

/// Law: what goes out of a prefix of a body is a prefix of what goes out of each longer one, and of what
/// goes out of each whole body that begins so.
pub fn output_grows()
    ensures prefix { (x : Response) (m more : List ℕ) → IsPrefix (output_so_far x m) (output_so_far x (m ++ more)) }
    ensures whole { (x : Response) (m more : List ℕ) → IsPrefix (output_so_far x m) (whole_output x (m ++ more)) }
{}

/// Law: what goes out is at most the head and twice the body, and 128 bytes more at the end.
pub fn output_is_short()
    ensures prefix { (x : Response) (m : List ℕ) → length (output_so_far x m) ≤ length x.bytes + 2 * length m }
    ensures whole { (x : Response) (m : List ℕ) → length (whole_output x m) ≤ length x.bytes + 2 * length m + 128 }
{}

/// Law: of a body that is read as text nothing goes out before its end.
pub fn held_text_is_silent()
    ensures { (x : Response) (m : List ℕ) → is_in_text x.judged m ≡ true → output_so_far x m ≡ [] }
{}

/// Law: at most 1,024 bytes are held of a body that isn't read as text, at most the limit of one that is, and
/// none of a response that is hopeless.
pub fn held_is_bounded()
    ensures window { (x : Response) (m : List ℕ) (dead : Bool) → is_in_text x.judged m ≡ false → held_of x m dead ≤ 1024 }
    ensures limit { (x : Response) (m : List ℕ) (dead : Bool) → 1024 ≤ x.judged.limit → held_of x m dead ≤ x.judged.limit }
    ensures hopeless { (x : Response) (m : List ℕ) (dead : Bool) → is_hopeless x.judged m dead ≡ true → held_of x m dead ≡ 0 }
{}
