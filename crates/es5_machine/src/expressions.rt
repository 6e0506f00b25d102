//! What the machine does at a token in an expression or a list of names (ECMA-262 5.1, sections 11 and 13).
//!
//! The levels of binary operators aren't told apart: they spell the same tokens as one flat chain of
//! operands, which is a law of `es5_trees`.
ghost use Rattle.std.specs.Prelude.{◌≡◌};
ghost use Rattle.es5_machine.specs.Steps as steps;

use crate::classes::{
    is_assign, is_atom, is_binary, is_colon, is_comma, is_equals, is_ident, is_in, is_key,
    is_left_paren, is_name, is_prefix, is_question, is_right_brace, is_right_paren, is_semicolon,
    is_update, may_stand,
};
use crate::states::{Answer, BlockKind, Control, Ends, Frame, Owner, Part, Phase, Role};
use es5_lexer::{Punct, Token, Word};

/// Where an expression begins that the frame on top ends.
const INSIDE: Control = Control::Operand(Role::Target, Ends::ByFrame);

/// An operand must begin: UnaryExpression.
pub(crate) fn operand(role: Role, ends: Ends, token: Token) -> Answer
    ensures { result ≡ steps.operand role ends token }
{
    if is_prefix(token) {
        Answer::Go(Control::Operand(Role::Plain, ends))
    } else {
        callee(role, ends, token)
    }
}

/// The same after `new`: MemberExpression and NewExpression.
pub(crate) fn callee(role: Role, ends: Ends, token: Token) -> Answer
    ensures { result ≡ steps.callee role ends token }
{
    if is_atom(token) {
        Answer::Go(Control::AfterLeft(role, ends))
    } else {
        opening(role, ends, token)
    }
}

/// A word or a bracket that begins an operand.
fn opening(role: Role, ends: Ends, token: Token) -> Answer
    ensures { result ≡ steps.opening role ends token }
{
    match token {
        Token::Word(Word::New) => Answer::Go(Control::Callee(role, ends)),
        Token::Word(Word::Function) => Answer::Go(Control::FunctionName(role, ends)),
        Token::Punct(Punct::LeftParen) => Answer::Push(Frame::Paren(role, ends), INSIDE),
        Token::Punct(Punct::LeftBracket) => Answer::Push(
            Frame::Array(role, ends),
            Control::MayLack,
        ),
        Token::Punct(Punct::LeftBrace) => Answer::Push(
            Frame::Object(role, ends),
            Control::Properties,
        ),
        _ => Answer::Refuse,
    }
}

/// After a LeftHandSideExpression.
#[inline(always)]
pub(crate) fn left(
    role: Role,
    ends: Ends,
    top: Option<Frame>,
    token: Token,
    newline: bool,
) -> Answer
    ensures { result ≡ steps.left role ends top token newline }
{
    match token {
        Token::Punct(mark) => left_mark(role, ends, top, mark, newline),
        _ => after(role, ends, top, token),
    }
}

#[inline(always)]
fn left_mark(role: Role, ends: Ends, top: Option<Frame>, mark: Punct, newline: bool) -> Answer
    ensures { result ≡ steps.left_mark role ends top mark newline }
{
    if is_update(mark) {
        updated(ends, newline)
    } else if is_assign(mark) {
        assigned(role, ends)
    } else {
        suffix(role, ends, top, mark)
    }
}

/// `++` or `--`, before which no line ends.
fn updated(ends: Ends, newline: bool) -> Answer
    ensures { result ≡ steps.updated ends newline }
{
    if newline {
        Answer::Refuse
    } else {
        Answer::Go(Control::AfterUpdate(ends))
    }
}

/// An operator of assignment, which only what began its AssignmentExpression may stand before.
fn assigned(role: Role, ends: Ends) -> Answer
    ensures { result ≡ steps.assigned role ends }
{
    match role {
        Role::Plain => Answer::Refuse,
        Role::Target | Role::Header => Answer::Go(Control::Operand(Role::Target, ends)),
    }
}

/// What makes a LeftHandSideExpression longer: members and arguments.
#[inline(always)]
fn suffix(role: Role, ends: Ends, top: Option<Frame>, mark: Punct) -> Answer
    ensures { result ≡ steps.suffix role ends top mark }
{
    match mark {
        Punct::Dot => Answer::Go(Control::AfterDot(role, ends)),
        Punct::LeftBracket => Answer::Push(Frame::Index(role, ends), INSIDE),
        Punct::LeftParen => Answer::Push(Frame::Paren(role, ends), Control::MayLack),
        _ => after(role, ends, top, Token::Punct(mark)),
    }
}

/// After a UnaryExpression: a binary operator, `?`, or the end.
#[inline(always)]
pub(crate) fn after(role: Role, ends: Ends, top: Option<Frame>, token: Token) -> Answer
    ensures { result ≡ steps.after role ends top token }
{
    if is_operator(ends, top, token) {
        Answer::Go(Control::Operand(Role::Plain, ends))
    } else if is_question(token) {
        Answer::Push(Frame::Conditional(ends), INSIDE)
    } else {
        last(role, ends, top, token)
    }
}

/// A binary operator, `in` only where it may stand.
fn is_operator(ends: Ends, top: Option<Frame>, token: Token) -> bool
    ensures { result ≡ steps.is_operator ends top token }
{
    is_binary(token) && may_stand(in_stands(ends, top), token)
}

/// Whether `in` is an operator here: not in the first part of a `for` (section 12.6.3).
fn in_stands(ends: Ends, top: Option<Frame>) -> bool
    ensures { result ≡ steps.in_stands ends top }
{
    match ends {
        Ends::ByFrame => in_stands_over(top),
        Ends::BySemicolon | Ends::ByDeclaration => true,
    }
}

fn in_stands_over(top: Option<Frame>) -> bool
    ensures { result ≡ steps.in_stands_over top }
{
    match top {
        Some(Frame::Head(part)) => !matches!(part, Part::Init | Part::First | Part::Next),
        _ => true,
    }
}

/// The `in` of a header after what began it, or the end of an AssignmentExpression.
fn last(role: Role, ends: Ends, top: Option<Frame>, token: Token) -> Answer
    ensures { result ≡ steps.last role ends top token }
{
    if ends_header(role, token) {
        Answer::Swap(Frame::Head(Part::Loop), INSIDE)
    } else {
        close(ends, top, token)
    }
}

fn ends_header(role: Role, token: Token) -> bool
    ensures { result ≡ steps.ends_header role token }
{
    match role {
        Role::Header => is_in(token),
        Role::Plain | Role::Target => false,
    }
}

/// What may follow a whole AssignmentExpression.
pub(crate) fn close(ends: Ends, top: Option<Frame>, token: Token) -> Answer
    ensures { result ≡ steps.close ends top token }
{
    match ends {
        Ends::ByFrame => close_by_frame(top, token),
        Ends::BySemicolon => close_statement(Control::Operand(Role::Target, ends), token),
        Ends::ByDeclaration => close_statement(Control::Binding(ends), token),
    }
}

fn close_by_frame(top: Option<Frame>, token: Token) -> Answer
    ensures { result ≡ steps.close Ends.ByFrame top token }
{
    match top {
        Some(frame) => close_frame(frame, token),
        None => Answer::Refuse,
    }
}

/// A comma, after which a statement goes on so, or its semicolon.
fn close_statement(next: Control, token: Token) -> Answer
    ensures { result ≡ steps.close_statement next token }
{
    match token {
        Token::Punct(Punct::Comma) => Answer::Go(next),
        Token::Punct(Punct::Semicolon) => Answer::Go(Control::Between),
        _ => Answer::Refuse,
    }
}

/// What ends an expression, or goes on after it, in the frame.
fn close_frame(frame: Frame, token: Token) -> Answer
    ensures { result ≡ steps.close_frame frame token }
{
    match token {
        Token::Punct(mark) => close_mark(frame, mark),
        Token::Word(word) => close_word(frame, word),
        _ => Answer::Refuse,
    }
}

fn close_mark(frame: Frame, mark: Punct) -> Answer
    ensures { result ≡ steps.close_mark frame mark }
{
    match mark {
        Punct::Comma => comma(frame),
        Punct::RightParen => right_paren(frame),
        Punct::RightBracket => right_bracket(frame),
        Punct::RightBrace => right_brace(frame),
        Punct::Semicolon => semicolon(frame),
        Punct::Colon => colon(frame),
        _ => Answer::Refuse,
    }
}

/// `in` after the one declaration of a header.
fn close_word(frame: Frame, word: Word) -> Answer
    ensures { result ≡ steps.close_word frame word }
{
    match (frame, word) {
        (Frame::Head(Part::First), Word::In) => Answer::Swap(Frame::Head(Part::Loop), INSIDE),
        _ => Answer::Refuse,
    }
}

fn comma(frame: Frame) -> Answer
    ensures { result ≡ steps.comma frame }
{
    match frame {
        Frame::Paren(_, _) | Frame::Index(_, _) | Frame::Clauses(_) => Answer::Go(INSIDE),
        Frame::Array(_, _) => Answer::Go(Control::MayLack),
        Frame::Object(_, _) => Answer::Go(Control::Properties),
        Frame::Head(part) => comma_in_head(part),
        _ => Answer::Refuse,
    }
}

fn comma_in_head(part: Part) -> Answer
    ensures { result ≡ steps.comma (Frame.Head part) }
{
    match part {
        Part::First => Answer::Swap(Frame::Head(Part::Next), Control::Binding(Ends::ByFrame)),
        Part::Next => Answer::Go(Control::Binding(Ends::ByFrame)),
        _ => Answer::Go(INSIDE),
    }
}

fn right_paren(frame: Frame) -> Answer
    ensures { result ≡ steps.right_paren frame }
{
    match frame {
        Frame::Paren(role, ends) => Answer::Pop(Control::AfterLeft(role, ends)),
        Frame::Head(Part::If) => Answer::Swap(Frame::Branch, Control::Need),
        Frame::Head(Part::Loop) => Answer::Pop(Control::Need),
        Frame::Head(Part::Switch) => Answer::Pop(Control::Open(Frame::Clauses(Phase::NoClause))),
        Frame::Head(Part::DoWhile) => Answer::Pop(Control::AtEnd),
        _ => Answer::Refuse,
    }
}

fn right_bracket(frame: Frame) -> Answer
    ensures { result ≡ steps.right_bracket frame }
{
    match frame {
        Frame::Index(role, ends) => Answer::Pop(Control::AfterLeft(role, ends)),
        Frame::Array(role, ends) => Answer::Pop(Control::AfterLeft(role, ends)),
        _ => Answer::Refuse,
    }
}

fn right_brace(frame: Frame) -> Answer
    ensures { result ≡ steps.right_brace frame }
{
    match frame {
        Frame::Object(role, ends) => Answer::Pop(Control::AfterLeft(role, ends)),
        _ => Answer::Refuse,
    }
}

/// The `;` between the parts of a `for`.
fn semicolon(frame: Frame) -> Answer
    ensures { result ≡ steps.semicolon frame }
{
    match frame {
        Frame::Head(Part::Init | Part::First | Part::Next) => {
            Answer::Swap(Frame::Head(Part::Test), Control::MayLack)
        }
        Frame::Head(Part::Test) => Answer::Swap(Frame::Head(Part::Loop), Control::MayLack),
        _ => Answer::Refuse,
    }
}

/// The `:` of a conditional or after `case`.
fn colon(frame: Frame) -> Answer
    ensures { result ≡ steps.colon frame }
{
    match frame {
        Frame::Conditional(ends) => Answer::Pop(Control::Operand(Role::Target, ends)),
        Frame::Clauses(_) => Answer::Go(Control::Between),
        _ => Answer::Refuse,
    }
}

/// After the `.` of a member.
pub(crate) fn dot(role: Role, ends: Ends, token: Token) -> Answer
    ensures { result ≡ steps.dot role ends token }
{
    if is_name(token) {
        Answer::Go(Control::AfterLeft(role, ends))
    } else {
        Answer::Refuse
    }
}

/// An operand may begin, or the frame on top goes on without one: in arguments, where an element of an
/// array may be left out, and in each part of a `for`.
pub(crate) fn may_lack(top: Option<Frame>, token: Token) -> Answer
    ensures { result ≡ steps.may_lack top token }
{
    match top {
        Some(frame) => lacking(frame, token),
        None => Answer::Refuse,
    }
}

fn lacking(frame: Frame, token: Token) -> Answer
    ensures { result ≡ steps.lacking frame token }
{
    if goes_without(frame, token) {
        close_frame(frame, token)
    } else {
        first_inside(frame, token)
    }
}

fn goes_without(frame: Frame, token: Token) -> bool
    ensures { result ≡ steps.goes_without frame token }
{
    match frame {
        Frame::Paren(_, _) => is_right_paren(token),
        Frame::Array(_, _) => lacks_element(token),
        Frame::Head(Part::Init | Part::Test) => is_semicolon(token),
        Frame::Head(Part::Loop) => is_right_paren(token),
        _ => false,
    }
}

fn lacks_element(token: Token) -> bool
    ensures { result ≡ steps.lacks_element token }
{
    match token {
        Token::Punct(mark) => matches!(mark, Punct::Comma | Punct::RightBracket),
        _ => false,
    }
}

fn first_inside(frame: Frame, token: Token) -> Answer
    ensures { result ≡ steps.first_inside frame token }
{
    if begins_declarations(frame, token) {
        Answer::Swap(Frame::Head(Part::First), Control::Binding(Ends::ByFrame))
    } else {
        operand(first_role(frame), Ends::ByFrame, token)
    }
}

fn begins_declarations(frame: Frame, token: Token) -> bool
    ensures { result ≡ steps.begins_declarations frame token }
{
    matches!(
        (frame, token),
        (Frame::Head(Part::Init), Token::Word(Word::Var))
    )
}

fn first_role(frame: Frame) -> Role
    ensures { result ≡ steps.first_role frame }
{
    match frame {
        Frame::Head(Part::Init) => Role::Header,
        _ => Role::Target,
    }
}

/// Where a property may begin.
pub(crate) fn properties(top: Option<Frame>, token: Token) -> Answer
    ensures { result ≡ steps.properties top token }
{
    if is_right_brace(token) {
        close(Ends::ByFrame, top, token)
    } else {
        property(token)
    }
}

fn property(token: Token) -> Answer
    ensures { result ≡ steps.property token }
{
    match token {
        Token::Get => Answer::Go(Control::AfterGet),
        Token::Set => Answer::Go(Control::AfterSet),
        _ => key(token),
    }
}

fn key(token: Token) -> Answer
    ensures { result ≡ steps.key token }
{
    if is_key(token) {
        Answer::Go(Control::AfterKey)
    } else {
        Answer::Refuse
    }
}

/// After the name of a property.
pub(crate) fn after_key(token: Token) -> Answer
    ensures { result ≡ steps.after_key token }
{
    if is_colon(token) {
        Answer::Go(INSIDE)
    } else {
        Answer::Refuse
    }
}

/// After `get` or `set`: the name of an accessor, or the `:` after a name of its own.
pub(crate) fn accessor(owner: Owner, token: Token) -> Answer
    ensures { result ≡ steps.accessor owner token }
{
    if is_key(token) {
        Answer::Go(Control::Open(Frame::Parameters(owner)))
    } else {
        after_key(token)
    }
}

/// The name of a declared function.
pub(crate) fn declaration_name(token: Token) -> Answer
    ensures { result ≡ steps.declaration_name token }
{
    if is_ident(token) {
        Answer::Go(Control::Open(Frame::Parameters(Owner::Declaration)))
    } else {
        Answer::Refuse
    }
}

/// The name of a function expression, or its `(`.
pub(crate) fn function_name(role: Role, ends: Ends, token: Token) -> Answer
    ensures { result ≡ steps.function_name role ends token }
{
    let frame = Frame::Parameters(Owner::Expression(role, ends));
    if is_ident(token) {
        Answer::Go(Control::Open(frame))
    } else if is_left_paren(token) {
        Answer::Push(frame, Control::FirstParameter)
    } else {
        Answer::Refuse
    }
}

/// After the `(` of names.
pub(crate) fn first_parameter(top: Option<Frame>, token: Token) -> Answer
    ensures { result ≡ steps.first_parameter top token }
{
    match top {
        Some(Frame::Parameters(owner)) => first_of(owner, token),
        _ => Answer::Refuse,
    }
}

fn first_of(owner: Owner, token: Token) -> Answer
    ensures { result ≡ steps.first_of owner token }
{
    if is_ident(token) && has_names(owner) {
        Answer::Go(Control::AfterParameter)
    } else if is_right_paren(token) && may_be_empty(owner) {
        Answer::Pop(Control::Open(body_of(owner)))
    } else {
        Answer::Refuse
    }
}

/// After a comma between names.
pub(crate) fn next_parameter(token: Token) -> Answer
    ensures { result ≡ steps.next_parameter token }
{
    if is_ident(token) {
        Answer::Go(Control::AfterParameter)
    } else {
        Answer::Refuse
    }
}

/// After a name among them.
pub(crate) fn after_parameter(top: Option<Frame>, token: Token) -> Answer
    ensures { result ≡ steps.after_parameter top token }
{
    match top {
        Some(Frame::Parameters(owner)) => next_of(owner, token),
        _ => Answer::Refuse,
    }
}

fn next_of(owner: Owner, token: Token) -> Answer
    ensures { result ≡ steps.next_of owner token }
{
    if is_right_paren(token) {
        Answer::Pop(Control::Open(body_of(owner)))
    } else if is_comma(token) && has_many(owner) {
        Answer::Go(Control::NextParameter)
    } else {
        Answer::Refuse
    }
}

fn has_names(owner: Owner) -> bool
    ensures { result ≡ steps.has_names owner }
{
    !matches!(owner, Owner::Getter)
}

fn may_be_empty(owner: Owner) -> bool
    ensures { result ≡ steps.may_be_empty owner }
{
    !matches!(owner, Owner::Setter | Owner::Handler)
}

fn has_many(owner: Owner) -> bool
    ensures { result ≡ steps.has_many owner }
{
    matches!(owner, Owner::Declaration | Owner::Expression(_, _))
}

/// The braces after the names.
fn body_of(owner: Owner) -> Frame
    ensures { result ≡ steps.body_of owner }
{
    match owner {
        Owner::Handler => Frame::Block(BlockKind::Catch),
        _ => Frame::Braces(owner),
    }
}

/// The name of a variable.
pub(crate) fn binding(ends: Ends, token: Token) -> Answer
    ensures { result ≡ steps.binding ends token }
{
    if is_ident(token) {
        Answer::Go(Control::Bound(ends))
    } else {
        Answer::Refuse
    }
}

/// After the name of a variable.
pub(crate) fn bound(ends: Ends, top: Option<Frame>, token: Token) -> Answer
    ensures { result ≡ steps.bound ends top token }
{
    if is_equals(token) {
        Answer::Go(Control::Operand(Role::Target, ends))
    } else {
        close(ends, top, token)
    }
}
