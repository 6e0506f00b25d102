//! What the machine does at a token between statements and in the words that begin them (ECMA-262 5.1,
//! sections 12 to 14), and the table of all states.
ghost use Rattle.std.specs.Prelude.{◌≡◌};
ghost use Rattle.es5_machine.specs.Steps as steps;

use crate::classes::{
    is_case, is_colon, is_default, is_else, is_finally, is_function, is_ident, is_left_brace,
    is_left_paren, is_right_brace, is_semicolon, is_while,
};
use crate::expressions::{
    accessor, after, after_key, after_parameter, binding, bound, callee, close, declaration_name,
    dot, first_parameter, function_name, left, may_lack, next_parameter, operand, properties,
};
use crate::states::{Answer, BlockKind, Control, Ends, Frame, Owner, Part, Phase, Role};
use es5_lexer::{Punct, Token, Word};

/// The first token of a Statement.
fn statement(token: Token) -> Answer
    ensures { result ≡ steps.statement token }
{
    match token {
        Token::Punct(mark) => statement_mark(mark),
        Token::Word(word) => statement_word(word),
        _ => statement_other(token),
    }
}

fn statement_mark(mark: Punct) -> Answer
    ensures { result ≡ steps.statement_mark mark }
{
    match mark {
        Punct::LeftBrace => Answer::Push(Frame::Block(BlockKind::Simple), Control::Between),
        Punct::Semicolon => Answer::Go(Control::Between),
        _ => operand(Role::Target, Ends::BySemicolon, Token::Punct(mark)),
    }
}

fn statement_word(word: Word) -> Answer
    ensures { result ≡ steps.statement_word word }
{
    match word {
        Word::Var => Answer::Go(Control::Binding(Ends::ByDeclaration)),
        Word::If => Answer::Go(Control::Open(Frame::Head(Part::If))),
        Word::While | Word::With => Answer::Go(Control::Open(Frame::Head(Part::Loop))),
        Word::For => Answer::Go(Control::Open(Frame::Head(Part::Init))),
        Word::Switch => Answer::Go(Control::Open(Frame::Head(Part::Switch))),
        Word::Do => Answer::Push(Frame::Do, Control::Need),
        Word::Continue | Word::Break => Answer::Go(Control::AfterJump),
        Word::Return => Answer::Go(Control::AfterReturn),
        Word::Throw => Answer::Go(Control::AfterThrow),
        Word::Debugger => Answer::Go(Control::AtEnd),
        Word::Try => Answer::Go(Control::Open(Frame::Block(BlockKind::Try))),
        Word::Function => Answer::Refuse,
        _ => operand(Role::Target, Ends::BySemicolon, Token::Word(word)),
    }
}

fn statement_other(token: Token) -> Answer
    ensures { result ≡ steps.statement_other token }
{
    if is_ident(token) {
        Answer::Go(Control::AfterName)
    } else {
        operand(Role::Target, Ends::BySemicolon, token)
    }
}

/// The first token of a SourceElement: a function may be declared.
fn element(token: Token) -> Answer
    ensures { result ≡ steps.element token }
{
    if is_function(token) {
        Answer::Go(Control::DeclarationName)
    } else {
        statement(token)
    }
}

/// In a list of statements or clauses, or after a statement.
fn between(top: Option<Frame>, token: Token) -> Answer
    ensures { result ≡ steps.between top token }
{
    match top {
        Some(frame) => within(frame, token),
        None => element(token),
    }
}

fn within(frame: Frame, token: Token) -> Answer
    ensures { result ≡ steps.within frame token }
{
    match frame {
        Frame::Braces(owner) => in_braces(owner, token),
        Frame::Block(kind) => in_block(kind, token),
        Frame::Clauses(phase) => in_clauses(phase, token),
        Frame::Branch => in_branch(token),
        Frame::Do => in_do(token),
        _ => Answer::Refuse,
    }
}

fn in_braces(owner: Owner, token: Token) -> Answer
    ensures { result ≡ steps.within (Frame.Braces owner) token }
{
    if is_right_brace(token) {
        Answer::Pop(after_body(owner))
    } else {
        element(token)
    }
}

fn after_body(owner: Owner) -> Control
    ensures { result ≡ steps.after_body owner }
{
    match owner {
        Owner::Expression(role, ends) => Control::AfterLeft(role, ends),
        Owner::Getter | Owner::Setter => Control::AfterAccessor,
        Owner::Declaration | Owner::Handler => Control::Between,
    }
}

fn in_block(kind: BlockKind, token: Token) -> Answer
    ensures { result ≡ steps.within (Frame.Block kind) token }
{
    if is_right_brace(token) {
        Answer::Pop(after_block(kind))
    } else {
        statement(token)
    }
}

fn after_block(kind: BlockKind) -> Control
    ensures { result ≡ steps.after_block kind }
{
    match kind {
        BlockKind::Try => Control::AfterTry,
        BlockKind::Catch => Control::AfterCatch,
        BlockKind::Simple | BlockKind::Finally => Control::Between,
    }
}

fn in_clauses(phase: Phase, token: Token) -> Answer
    ensures { result ≡ steps.in_clauses phase token }
{
    if is_right_brace(token) {
        Answer::Pop(Control::Between)
    } else if is_case(token) {
        Answer::Swap(
            Frame::Clauses(with_clause(phase)),
            Control::Operand(Role::Target, Ends::ByFrame),
        )
    } else if is_default(token) {
        default_clause(phase)
    } else {
        clause_statement(phase, token)
    }
}

fn with_clause(phase: Phase) -> Phase
    ensures { result ≡ steps.with_clause phase }
{
    match phase {
        Phase::NoClause => Phase::InClause,
        Phase::InClause | Phase::Defaulted => phase,
    }
}

fn default_clause(phase: Phase) -> Answer
    ensures { result ≡ steps.default_clause phase }
{
    match phase {
        Phase::Defaulted => Answer::Refuse,
        Phase::NoClause | Phase::InClause => {
            Answer::Swap(Frame::Clauses(Phase::Defaulted), Control::AfterDefault)
        }
    }
}

fn clause_statement(phase: Phase, token: Token) -> Answer
    ensures { result ≡ steps.clause_statement phase token }
{
    match phase {
        Phase::NoClause => Answer::Refuse,
        Phase::InClause | Phase::Defaulted => statement(token),
    }
}

fn in_branch(token: Token) -> Answer
    ensures { result ≡ steps.within Frame.Branch token }
{
    if is_else(token) {
        Answer::Pop(Control::Need)
    } else {
        Answer::Refuse
    }
}

fn in_do(token: Token) -> Answer
    ensures { result ≡ steps.within Frame.Do token }
{
    if is_while(token) {
        Answer::Pop(Control::Open(Frame::Head(Part::DoWhile)))
    } else {
        Answer::Refuse
    }
}

/// After the block of a `catch`.
fn after_catch(top: Option<Frame>, token: Token) -> Answer
    ensures { result ≡ steps.after_catch top token }
{
    if is_finally(token) {
        Answer::Go(Control::Open(Frame::Block(BlockKind::Finally)))
    } else {
        between(top, token)
    }
}

/// The semicolon of a statement.
fn at_end(token: Token) -> Answer
    ensures { result ≡ steps.at_end token }
{
    if is_semicolon(token) {
        Answer::Go(Control::Between)
    } else {
        Answer::Refuse
    }
}

/// After `continue` or `break`: a label on the same line, or the end.
fn after_jump(token: Token, newline: bool) -> Answer
    ensures { result ≡ steps.after_jump token newline }
{
    if is_ident(token) && !newline {
        Answer::Go(Control::AtEnd)
    } else {
        at_end(token)
    }
}

/// After `return`: an expression on the same line, or the end.
fn after_return(token: Token, newline: bool) -> Answer
    ensures { result ≡ steps.after_return token newline }
{
    if is_semicolon(token) {
        Answer::Go(Control::Between)
    } else {
        after_throw(token, newline)
    }
}

/// After `throw`: an expression on the same line.
fn after_throw(token: Token, newline: bool) -> Answer
    ensures { result ≡ steps.after_throw token newline }
{
    if newline {
        Answer::Refuse
    } else {
        operand(Role::Target, Ends::BySemicolon, token)
    }
}

/// After the block of a `try`.
fn after_try(token: Token) -> Answer
    ensures { result ≡ steps.after_try token }
{
    match token {
        Token::Word(Word::Catch) => Answer::Go(Control::Open(Frame::Parameters(Owner::Handler))),
        Token::Word(Word::Finally) => Answer::Go(Control::Open(Frame::Block(BlockKind::Finally))),
        _ => Answer::Refuse,
    }
}

/// After `default`.
fn after_default(token: Token) -> Answer
    ensures { result ≡ steps.after_default token }
{
    if is_colon(token) {
        Answer::Go(Control::Between)
    } else {
        Answer::Refuse
    }
}

/// The bracket that opens the frame.
fn open_with(frame: Frame, token: Token) -> Answer
    ensures { result ≡ steps.open_with frame token }
{
    if opens(frame, token) {
        Answer::Push(frame, start(frame))
    } else {
        Answer::Refuse
    }
}

fn opens(frame: Frame, token: Token) -> bool
    ensures { result ≡ steps.opens frame token }
{
    match frame {
        Frame::Head(_) | Frame::Parameters(_) => is_left_paren(token),
        Frame::Braces(_) | Frame::Block(_) | Frame::Clauses(_) => is_left_brace(token),
        _ => false,
    }
}

/// Where the machine stands after the bracket that opens the frame.
fn start(frame: Frame) -> Control
    ensures { result ≡ steps.start frame }
{
    match frame {
        Frame::Head(Part::Init) => Control::MayLack,
        Frame::Head(_) => Control::Operand(Role::Target, Ends::ByFrame),
        Frame::Parameters(_) => Control::FirstParameter,
        _ => Control::Between,
    }
}

/// After an identifier that begins a statement: a label's `:`, or what goes on with an expression.
fn after_name(top: Option<Frame>, token: Token, newline: bool) -> Answer
    ensures { result ≡ steps.after_name top token newline }
{
    if is_colon(token) {
        Answer::Go(Control::Need)
    } else {
        left(Role::Target, Ends::BySemicolon, top, token, newline)
    }
}

/// What the machine does at a token, where it stands so and the frame is on top.
#[inline(always)]
pub(crate) fn consume(control: Control, top: Option<Frame>, token: Token, newline: bool) -> Answer
    ensures { result ≡ steps.consume control top token newline }
{
    match control {
        Control::Between => between(top, token),
        Control::Need => statement(token),
        Control::AfterCatch => after_catch(top, token),
        Control::AtEnd => at_end(token),
        Control::AfterJump => after_jump(token, newline),
        Control::AfterReturn => after_return(token, newline),
        Control::AfterThrow => after_throw(token, newline),
        Control::AfterTry => after_try(token),
        Control::AfterDefault => after_default(token),
        Control::Open(frame) => open_with(frame, token),
        Control::Binding(ends) => binding(ends, token),
        Control::Bound(ends) => bound(ends, top, token),
        Control::Operand(role, ends) => operand(role, ends, token),
        Control::Callee(role, ends) => callee(role, ends, token),
        Control::AfterLeft(role, ends) => left(role, ends, top, token, newline),
        Control::AfterName => after_name(top, token, newline),
        Control::AfterDot(role, ends) => dot(role, ends, token),
        Control::AfterUpdate(ends) => after(Role::Plain, ends, top, token),
        Control::AfterAccessor => close(Ends::ByFrame, top, token),
        Control::MayLack => may_lack(top, token),
        Control::Properties => properties(top, token),
        Control::AfterKey => after_key(token),
        Control::AfterGet => accessor(Owner::Getter, token),
        Control::AfterSet => accessor(Owner::Setter, token),
        Control::DeclarationName => declaration_name(token),
        Control::FunctionName(role, ends) => function_name(role, ends, token),
        Control::FirstParameter => first_parameter(top, token),
        Control::NextParameter => next_parameter(token),
        Control::AfterParameter => after_parameter(top, token),
        Control::Dead => Answer::Refuse,
    }
}
