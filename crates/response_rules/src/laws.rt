//! What the definitions say of one another.
ghost use Rattle.std.specs.Prelude.{◌≡◌, ◌↔◌, ◌<◌, ◌≤◌, ◌++◌, IsTrue, List, ℕ, Bool, true, false, length};
ghost use Rattle.text_stream.specs.Decoding.{characters_of};
ghost use Rattle.json_recogniser.specs.Grammar.{IsJson};
ghost use Rattle.es5_machine.specs.Scripts.{IsScript};
ghost use Rattle.es5_machine.specs.ScriptTests.{HasRead as ScriptHasRead, is_dead};
ghost use Rattle.response_rules.specs.declared.rules.Rule.{Rule};
ghost use Rattle.response_rules.specs.declared.deciding.Decider.{Decider};
ghost use Rattle.response_rules.specs.Rules.{is_allowing};
ghost use Rattle.response_rules.specs.Heads.{Case, HasOneEssence};
ghost use Rattle.response_rules.specs.Texts.{is_script, is_json};
ghost use Rattle.signatures.specs.Window.{window_size};
ghost use Rattle.response_rules.specs.Tables.{IsRule, rule_of};
ghost use Rattle.response_rules.specs.Settled.{IsSettled, settled_rule, is_sent, is_blocked, is_in_text, is_hopeless};
ghost use Rattle.response_rules.specs.Reads.{HasRead, script_of, is_script_dead};

/// Law: fields state one essence at most.
pub fn one_essence()
    ensures { (fields : List (List ℕ × List ℕ)) → HasOneEssence fields }
{}

/// Law: the truth values of the rules' table are those of being a script, and of being JSON.
pub fn texts_are_decided()
    ensures script { (body : List ℕ) → IsTrue (is_script body) ↔ IsScript body }
    ensures json { (body : List ℕ) → IsTrue (is_json body) ↔ IsJson (characters_of body) }
{}

/// Law: the function of the definitions gives the rule that decides a response. So there is just one.
pub fn rule_is_computed()
    ensures { (h : Case) (body : List ℕ) (r : Rule) → IsRule h body r ↔ (rule_of h body ≡ r) }
{}

/// Law: the function of the definitions gives the rule that a prefix of the body settles.
pub fn settled_is_computed()
    ensures { (h : Case) (prefix : List ℕ) (r : Rule) → IsSettled h r prefix false ↔ (settled_rule h prefix ≡ Some r) }
{}

/// Law: a body may be passed on exactly where its prefix settles a rule that allows, and a response is
/// blocked early exactly where it settles one that blocks.
pub fn judgement_is_settled()
    ensures sent { (h : Case) (prefix : List ℕ)
        → (is_sent h prefix ≡ true) ↔ ((r : Rule) × IsSettled h r prefix false × (is_allowing r ≡ true)) }
    ensures blocked { (h : Case) (prefix : List ℕ)
        → (is_blocked h prefix ≡ true) ↔ ((r : Rule) × IsSettled h r prefix false × (is_allowing r ≡ false)) }
{}

/// Law: a rule that a prefix settles is settled by every longer prefix, and decides every body that
/// begins so.
pub fn settled_is_for_good()
    ensures settled { (h : Case) (prefix more : List ℕ) (r : Rule) → IsSettled h r prefix false
        → IsSettled h r (prefix ++ more) false }
    ensures decides { (h : Case) (prefix more : List ℕ) (r : Rule) → IsSettled h r prefix false
        → IsRule h (prefix ++ more) r }
{}

/// Law: once a body may be passed on, it may be so for good, and the rule that allows it stays.
pub fn sent_is_for_good()
    ensures sent { (h : Case) (prefix more : List ℕ) → is_sent h prefix ≡ true → is_sent h (prefix ++ more) ≡ true }
    ensures rule { (h : Case) (prefix more : List ℕ) → is_sent h prefix ≡ true
        → rule_of h (prefix ++ more) ≡ rule_of h prefix }
    ensures allows { (h : Case) (prefix : List ℕ) → is_sent h prefix ≡ true → is_allowing (rule_of h prefix) ≡ true }
{}

/// Law: once a rule that blocks is settled it is so for good, and no rule allows the response, however its body goes on.
pub fn blocked_is_for_good()
    ensures blocked { (h : Case) (prefix more : List ℕ) → is_blocked h prefix ≡ true → is_blocked h (prefix ++ more) ≡ true }
    ensures blocks { (h : Case) (prefix more : List ℕ) → is_blocked h prefix ≡ true
        → is_allowing (rule_of h (prefix ++ more)) ≡ false }
    ensures unsent { (h : Case) (prefix : List ℕ) → is_blocked h prefix ≡ true → is_sent h prefix ≡ false }
{}

/// Law: a body that is read as text is so for good, and is never passed on before its end.
pub fn text_is_for_good()
    ensures text { (h : Case) (prefix more : List ℕ) → is_in_text h prefix ≡ true → is_in_text h (prefix ++ more) ≡ true }
    ensures unsent { (h : Case) (prefix : List ℕ) → is_in_text h prefix ≡ true → is_sent h prefix ≡ false }
{}

/// Law: while a body is read as text, the script test that its decider holds has read it, unless it is longer than the
/// limit; and its death is that of which [`crate::Decider::is_hopeless`] speaks.
pub fn text_is_read()
    ensures reads { (d : Decider) (h : Case) (m : List ℕ) → HasRead d h m → is_in_text h m ≡ true → length m ≤ h.limit
        → ScriptHasRead (script_of d) m }
    ensures dead { (d : Decider) → is_script_dead d ≡ is_dead (script_of d) }
{}

/// Law: once a response is hopeless it is so for good, and nothing of it may be passed on; and where a decider has
/// read it, no rule allows it, however its body goes on.
pub fn hopeless_is_for_good()
    ensures hopeless { (h : Case) (prefix more : List ℕ) (dead : Bool) → is_hopeless h prefix dead ≡ true
        → is_hopeless h (prefix ++ more) dead ≡ true }
    ensures unsent { (h : Case) (prefix : List ℕ) (dead : Bool) → is_hopeless h prefix dead ≡ true
        → is_sent h prefix ≡ false }
    ensures blocks { (d : Decider) (h : Case) (prefix more : List ℕ) → HasRead d h prefix
        → is_hopeless h prefix (is_script_dead d) ≡ true → is_allowing (rule_of h (prefix ++ more)) ≡ false }
{}

/// Law: a body that may not be passed on, isn't hopeless and isn't read as text is shorter than the window.
pub fn open_body_is_short()
    ensures { (h : Case) (prefix : List ℕ) (dead : Bool) → is_sent h prefix ≡ false → is_hopeless h prefix dead ≡ false
        → is_in_text h prefix ≡ false → length prefix < window_size }
{}
