//! Laws of the definitions of a response.
ghost use Rattle.std.specs.Prelude.{◌≡◌, ℕ, Bool, true, false, List, ◌++◌};
ghost use Rattle.orb_io.specs.Told.{IsPrefix};
ghost use Rattle.exchanges.specs.declared.room.Context.{Context};
ghost use Rattle.live_proxy.specs.Responses.{Coming, IsResponse, end_of, shown, state_after};

/// Law: bytes are one response at most, in all that is answered of it: where it ends, what is shown of it, and the
/// state that it leaves.
pub fn one_response()
    ensures end { (to_head : Bool) (bytes : List ℕ) (a b : Coming) (after others : List ℕ)
        → IsResponse to_head bytes a after → IsResponse to_head bytes b others
        → (ended : Bool) → end_of a ended ≡ end_of b ended }
    ensures shown { (c : Context) (bytes : List ℕ) (a b : Coming) (after others : List ℕ)
        → IsResponse c.asks.is_head bytes a after → IsResponse c.asks.is_head bytes b others
        → (ended : Bool) → shown c ended a ≡ shown c ended b }
    ensures state { (c : Context) (bytes : List ℕ) (a b : Coming) (after others : List ℕ)
        → IsResponse c.asks.is_head bytes a after → IsResponse c.asks.is_head bytes b others
        → state_after c a ≡ state_after c b }
{}

/// Law: what is shown of first bytes begins what is shown of all longer ones, and of the same bytes where upstream has
/// ended.
pub fn shown_grows()
    ensures longer { (c : Context) (bytes more : List ℕ) (a b : Coming) (after others : List ℕ)
        → IsResponse c.asks.is_head bytes a after → IsResponse c.asks.is_head (bytes ++ more) b others
        → (ended : Bool) → IsPrefix (shown c false a) (shown c ended b) }
    ensures ends { (c : Context) (a : Coming) → IsPrefix (shown c false a) (shown c true a) }
{}
