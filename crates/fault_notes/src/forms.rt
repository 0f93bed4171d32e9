// The forms of the notation: the word of each, its parts in order, and how a message writes it.

/// An element of a form.
#[derive(Clone, Copy, Debug, PartialEq, Eq)]
pub enum Part {
    /// The word of a form.
    Word,
    /// The number 1 of the header.
    One,
    Name,
    Type,
    Policy,
    /// `mutable` or `readonly`.
    SnapshotKind,
    /// `global` or the name of a take.
    Snapshot,
    Int,
    Literal,
    Expression,
    /// A list of pairs (NAME EXPR).
    Attributes,
    /// A pair (NAME EXPR).
    Attribute,
    /// A list of pairs (NAME TYPE).
    Parameters,
    /// A pair (NAME TYPE).
    Parameter,
    /// A list of statements.
    Statements,
    Statement,
    Step,
    /// A step inside a repeat, which is no repeat.
    RepeatedStep,
    /// A step inside `during`, which is no frame and no repeat.
    InnerStep,
    /// The list (during STEP..) of a frame.
    During,
    TopForm,
}

/// The parts of a list in order: `parts`, and after them any number of `rest`.
#[derive(Clone, Copy)]
pub struct Shape {
    pub parts: &'static [Part],
    pub rest: Option<Part>,
}

/// A form: its word, how a message writes it, and its parts.
#[derive(Clone, Copy)]
pub struct Form {
    pub word: &'static str,
    pub text: &'static str,
    pub shape: Shape,
}

static TOP_FORMS: [Form; 4] = [
    Form {
        word: "compose",
        text: "(compose 1)",
        shape: Shape {
            parts: &[Part::Word, Part::One],
            rest: None,
        },
    },
    Form {
        word: "state",
        text: "(state NAME TYPE POLICY LITERAL)",
        shape: Shape {
            parts: &[
                Part::Word,
                Part::Name,
                Part::Type,
                Part::Policy,
                Part::Literal,
            ],
            rest: None,
        },
    },
    Form {
        word: "fun",
        text: "(fun NAME ((NAME TYPE)..) STMT..), with `()` for no parameters",
        shape: Shape {
            parts: &[Part::Word, Part::Name, Part::Parameters],
            rest: Some(Part::Statement),
        },
    },
    Form {
        word: "do",
        text: "(do NAME STEP..)",
        shape: Shape {
            parts: &[Part::Word, Part::Name],
            rest: Some(Part::Step),
        },
    },
];

static STATEMENTS: [Form; 7] = [
    Form {
        word: "node",
        text: "(node NAME ((NAME EXPR)..) STMT..), with `()` for no attributes",
        shape: Shape {
            parts: &[Part::Word, Part::Name, Part::Attributes],
            rest: Some(Part::Statement),
        },
    },
    Form {
        word: "call",
        text: "(call NAME EXPR..)",
        shape: Shape {
            parts: &[Part::Word, Part::Name],
            rest: Some(Part::Expression),
        },
    },
    Form {
        word: "key",
        text: "(key EXPR STMT..)",
        shape: Shape {
            parts: &[Part::Word, Part::Expression],
            rest: Some(Part::Statement),
        },
    },
    Form {
        word: "if",
        text: "(if EXPR (STMT..) (STMT..)), with `()` for no statements",
        shape: Shape {
            parts: &[
                Part::Word,
                Part::Expression,
                Part::Statements,
                Part::Statements,
            ],
            rest: None,
        },
    },
    Form {
        word: "for",
        text: "(for NAME EXPR STMT..)",
        shape: Shape {
            parts: &[Part::Word, Part::Name, Part::Expression],
            rest: Some(Part::Statement),
        },
    },
    Form {
        word: "let",
        text: "(let NAME EXPR STMT..)",
        shape: Shape {
            parts: &[Part::Word, Part::Name, Part::Expression],
            rest: Some(Part::Statement),
        },
    },
    Form {
        word: "remember",
        text: "(remember NAME ((NAME EXPR)..) EXPR STMT..), with `()` for no keys",
        shape: Shape {
            parts: &[Part::Word, Part::Name, Part::Attributes, Part::Expression],
            rest: Some(Part::Statement),
        },
    },
];

static STEPS: [Form; 8] = [
    Form {
        word: "take",
        text: "(take NAME mutable SNAP) or (take NAME readonly SNAP)",
        shape: Shape {
            parts: &[Part::Word, Part::Name, Part::SnapshotKind, Part::Snapshot],
            rest: None,
        },
    },
    Form {
        word: "read",
        text: "(read SNAP NAME), where SNAP is `global` or the name of a take",
        shape: Shape {
            parts: &[Part::Word, Part::Snapshot, Part::Name],
            rest: None,
        },
    },
    Form {
        word: "write",
        text: "(write SNAP NAME LITERAL), where SNAP is `global` or the name of a take",
        shape: Shape {
            parts: &[Part::Word, Part::Snapshot, Part::Name, Part::Literal],
            rest: None,
        },
    },
    Form {
        word: "add",
        text: "(add SNAP NAME INT), where SNAP is `global` or the name of a take",
        shape: Shape {
            parts: &[Part::Word, Part::Snapshot, Part::Name, Part::Int],
            rest: None,
        },
    },
    Form {
        word: "apply",
        text: "(apply SNAP)",
        shape: Shape {
            parts: &[Part::Word, Part::Snapshot],
            rest: None,
        },
    },
    Form {
        word: "dispose",
        text: "(dispose SNAP)",
        shape: Shape {
            parts: &[Part::Word, Part::Snapshot],
            rest: None,
        },
    },
    Form {
        word: "frame",
        text: "(frame) or (frame (during STEP..))",
        shape: Shape {
            parts: &[Part::Word],
            rest: Some(Part::During),
        },
    },
    Form {
        word: "repeat",
        text: "(repeat INT STEP..)",
        shape: Shape {
            parts: &[Part::Word, Part::Int],
            rest: Some(Part::RepeatedStep),
        },
    },
];

static DURING: [Form; 1] = [Form {
    word: "during",
    text: "(during STEP..)",
    shape: Shape {
        parts: &[Part::Word],
        rest: Some(Part::InnerStep),
    },
}];

/// A `get`. The other lists that are expressions are those of operators.
pub static GET: Form = Form {
    word: "get",
    text: "(get NAME)",
    shape: Shape {
        parts: &[Part::Word, Part::Name],
        rest: None,
    },
};

impl Part {
    /// Returns the forms that may be here.
    pub fn forms(self) -> &'static [Form] {
        match self {
            Part::TopForm => &TOP_FORMS,
            Part::Statement => &STATEMENTS,
            Part::Step => &STEPS,
            Part::RepeatedStep => &STEPS[..7],
            Part::InnerStep => &STEPS[..6],
            Part::During => &DURING,
            _ => &[],
        }
    }

    /// Returns the phrase of a message for what is expected here.
    pub fn phrase(self) -> &'static str {
        match self {
            Part::Word => "a word",
            Part::One => "the number 1",
            Part::Name =>
                "a name: letters, digits and `_`, a letter first, not `global`, `true` or `false`",
            Part::Type => "a type: Int, Bool, Text or Ints",
            Part::Policy => "a policy: Structural, Never, Counter, Largest or Append",
            Part::SnapshotKind => "`mutable` or `readonly`",
            Part::Snapshot => "a snapshot: `global` or the name of a take",
            Part::Int =>
                "a number: `0`, or digits that begin with another digit, with `-` before a negative number",
            Part::Literal =>
                "a literal: a number, `true`, `false`, a string in double quotes, or (ints INT..)",
            Part::Expression =>
                "an expression: a literal, a variable, (get NAME), or (OPERATOR EXPR..)",
            Part::Attributes => "a list of pairs ((NAME EXPR)..), with `()` for none",
            Part::Attribute => "a pair (NAME EXPR): two parentheses begin a list of pairs",
            Part::Parameters => "a list of pairs ((NAME TYPE)..), with `()` for none",
            Part::Parameter => "a pair (NAME TYPE): two parentheses begin a list of pairs",
            Part::Statements => "a list of statements (STMT..), with `()` for none",
            Part::Statement =>
                "a statement: a list that begins with node, call, key, if, for, let or remember",
            Part::Step =>
                "a step: a list that begins with take, read, write, add, apply, dispose, frame or repeat",
            Part::RepeatedStep =>
                "a step of a repeat: take, read, write, add, apply, dispose or frame",
            Part::InnerStep => "a step inside a frame: take, read, write, add, apply or dispose",
            Part::During => "the inner steps of a frame: (during STEP..)",
            Part::TopForm =>
                "a form: a list that begins with state, fun or do (a comment begins with `;`)",
        }
    }

    /// Returns the noun of a message for a form here.
    pub fn noun(self) -> &'static str {
        match self {
            Part::TopForm => "a form",
            Part::Statement => "a statement",
            Part::Step => "a step",
            Part::RepeatedStep => "a step of a repeat",
            Part::InnerStep => "a step inside a frame",
            Part::Expression => "an operator",
            _ => "a word of this list",
        }
    }
}

static EMPTY: [Part; 0] = [];

static PAIR_OF_EXPRESSION: [Part; 2] = [Part::Name, Part::Expression];

static PAIR_OF_TYPE: [Part; 2] = [Part::Name, Part::Type];

impl Shape {
    /// Returns the shape of a list of any number of `rest`.
    pub fn list_of(rest: Part) -> Self {
        Shape {
            parts: &EMPTY,
            rest: Some(rest),
        }
    }

    /// Returns the shape of a list of a word and any number of `rest`.
    pub fn words_and(rest: Part) -> Self {
        Shape {
            parts: &[Part::Word],
            rest: Some(rest),
        }
    }

    /// Returns the shape of an operator with 1, 2 or 3 operands.
    pub fn operands(count: usize) -> Self {
        let parts: &'static [Part] = match count {
            1 => &[Part::Word, Part::Expression],
            2 => &[Part::Word, Part::Expression, Part::Expression],
            _ => &[
                Part::Word,
                Part::Expression,
                Part::Expression,
                Part::Expression,
            ],
        };
        Shape { parts, rest: None }
    }

    /// Returns the shape of a pair: a name with an expression or, for a parameter, with a type.
    pub fn pair(part: Part) -> Self {
        let parts: &'static [Part] = match part {
            Part::Parameter => &PAIR_OF_TYPE,
            _ => &PAIR_OF_EXPRESSION,
        };
        Shape { parts, rest: None }
    }

    /// Whether a list of `count` trees may have this shape.
    pub fn fits(self, count: usize) -> bool {
        match self.rest {
            Some(_) => self.parts.len() <= count,
            None => self.parts.len() == count,
        }
    }

    /// Returns the part at an index. After the last part that is `rest`.
    pub fn part(self, index: usize) -> Part {
        match self.parts.get(index) {
            Some(part) => *part,
            None => match self.rest {
                Some(part) => part,
                None => Part::Word,
            },
        }
    }
}

/// Returns the form with this word.
pub fn find_form(forms: &'static [Form], word: &str) -> Option<Form> {
    for form in forms {
        if form.word == word {
            return Some(*form);
        }
    }
    None
}
