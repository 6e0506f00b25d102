//! The states of the machine and the frames on its stack.
//!
//! A state says where in a rule of the grammar the machine stands, and is named for what was read last
//! or for what comes next. What a bracket interrupts is kept in its frame, so that the stack needs no
//! other memory: of an expression its [`Role`] and its [`Ends`].

/// What the operand at hand may still become.
#[derive(Clone, Copy)]
pub enum Role {
    /// Nothing: an operator stands before it in its AssignmentExpression.
    Plain,
    /// What is assigned to: it began its AssignmentExpression.
    Target,
    /// That, or what stands before the `in` of a `for`: it began the header.
    Header,
}

/// What ends the expression at hand.
#[derive(Clone, Copy)]
pub enum Ends {
    /// The frame on top.
    ByFrame,
    /// The end of a statement: a semicolon, or where one is left out.
    BySemicolon,
    /// The same, or the comma before the next declaration of a `var` statement.
    ByDeclaration,
}

/// What stands in the parentheses of a statement.
#[derive(Clone, Copy)]
pub enum Part {
    /// The condition of an `if`.
    If,
    /// That of a `while`, the object of a `with`, or the last part of a `for`: a body follows.
    Loop,
    /// What a `switch` looks at.
    Switch,
    /// The condition after a `do` and its body.
    DoWhile,
    /// The first part of a `for`.
    Init,
    /// The first part of a `for` that begins with `var`, in its first declaration.
    First,
    /// The same, in a later declaration.
    Next,
    /// The second part of a `for`.
    Test,
}

/// Whose block of statements it is.
#[derive(Clone, Copy)]
pub enum BlockKind {
    Simple,
    Try,
    Catch,
    Finally,
}

/// How far the braces of a `switch` have come.
#[derive(Clone, Copy)]
pub enum Phase {
    /// No clause has begun, so no statement may stand here.
    NoClause,
    /// In or after a clause.
    InClause,
    /// The same, and `default` was one of them.
    Defaulted,
}

/// Whose names in parentheses and body in braces they are.
#[derive(Clone, Copy)]
pub enum Owner {
    /// Those of a function declaration.
    Declaration,
    /// Those of a function expression, and of what operand it is.
    Expression(Role, Ends),
    /// Those of a getter, which has no name.
    Getter,
    /// Those of a setter, which has one.
    Setter,
    /// Those of a `catch`, which has one; its body is a block.
    Handler,
}

/// A unit that is open, and what goes on after it.
#[derive(Clone, Copy)]
pub enum Frame {
    /// `(` of an expression or of arguments.
    Paren(Role, Ends),
    /// `[` of a member.
    Index(Role, Ends),
    /// `[` of an array literal.
    Array(Role, Ends),
    /// `{` of an object literal.
    Object(Role, Ends),
    /// `?` of a conditional.
    Conditional(Ends),
    /// `(` after a word of a statement.
    Head(Part),
    /// `(` of parameters, of an accessor or of a `catch`.
    Parameters(Owner),
    /// `{` of the body of a function or an accessor.
    Braces(Owner),
    /// `{` of a block.
    Block(BlockKind),
    /// `{` of a `switch`.
    Clauses(Phase),
    /// The first branch of an `if`.
    Branch,
    /// A `do` with its body.
    Do,
}

// All zero bytes, so that a new stack costs one pass over its room.
impl Default for Frame {
    fn default() -> Frame {
        Frame::Paren(Role::Plain, Ends::ByFrame)
    }
}

/// Where the machine stands.
#[derive(Clone, Copy)]
pub enum Control {
    /// In a list of statements or clauses, or after a statement.
    Between,
    /// A statement must begin.
    Need,
    /// After the block of a `catch`: as between statements, or `finally`.
    AfterCatch,
    /// The statement is complete but for its semicolon.
    AtEnd,
    /// After `continue` or `break`.
    AfterJump,
    /// After `return`.
    AfterReturn,
    /// After `throw`.
    AfterThrow,
    /// After the block of a `try`.
    AfterTry,
    /// After `default`.
    AfterDefault,
    /// The bracket that opens this frame must come.
    Open(Frame),
    /// The name of a variable must come.
    Binding(Ends),
    /// After the name of a variable.
    Bound(Ends),
    /// An operand must begin.
    Operand(Role, Ends),
    /// After `new`.
    Callee(Role, Ends),
    /// After a LeftHandSideExpression, which may go on.
    AfterLeft(Role, Ends),
    /// After an identifier that begins a statement: the same, or a label.
    AfterName,
    /// After the `.` of a member.
    AfterDot(Role, Ends),
    /// After the `++` or `--` that ends a PostfixExpression.
    AfterUpdate(Ends),
    /// After the body of an accessor.
    AfterAccessor,
    /// An operand may begin, or the frame on top goes on without one.
    MayLack,
    /// In an object literal, where a property may begin.
    Properties,
    /// After the name of a property.
    AfterKey,
    /// After `get` where a property may begin.
    AfterGet,
    /// After `set` where a property may begin.
    AfterSet,
    /// After the `function` of a declaration.
    DeclarationName,
    /// After the `function` of an expression.
    FunctionName(Role, Ends),
    /// After the `(` of names.
    FirstParameter,
    /// After a comma between names.
    NextParameter,
    /// After a name among them.
    AfterParameter,
    /// Nothing can save the list.
    Dead,
}

/// What the machine does at a token.
#[derive(Clone, Copy)]
pub enum Answer {
    /// Die.
    Refuse,
    /// Go to the state.
    Go(Control),
    /// The same, with the frame on the stack.
    Push(Frame, Control),
    /// The same, without the frame on top.
    Pop(Control),
    /// The same, with the frame in the place of the one on top.
    Swap(Frame, Control),
}

/// What ended where a semicolon may be left out (section 7.9.1).
#[derive(Clone, Copy)]
pub enum Ended {
    /// An expression that doesn't end in `++` or `--`.
    ByOperand,
    /// An expression that does.
    ByUpdate,
    /// Declarations whose last one is a name alone.
    ByName,
    /// A word, the identifier of a jump, or the `)` of a `do`.
    ByWord,
}
