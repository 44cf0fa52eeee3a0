//! Laws of the grammar.
ghost use Rattle.std.specs.Prelude.{◌≡◌, ℕ, List, map, true};
ghost use Rattle.vortex_syntax.specs.Tokens as seen;
ghost use Rattle.vortex_syntax.specs.Lexing.{Lexes};
ghost use Rattle.vortex_syntax.specs.Syntax.{Syntax};
ghost use Rattle.vortex_syntax.specs.Levels.{Fits};
ghost use Rattle.vortex_syntax.specs.Spelling.{spelling};
ghost use Rattle.vortex_syntax.specs.Nesting.{nests};
ghost use Rattle.vortex_syntax.specs.Writing.{written, AllWritable};
ghost use Rattle.vortex_syntax.specs.Postfix.{postfix};
ghost use Rattle.vortex_syntax.specs.Grammar.{Reads};
ghost use Rattle.vortex_syntax.specs.AnswerLists.{Answer, ReadsAnswers, told};

/// A text has at most one list of tokens.
pub fn one_list()
    ensures { (text : List ℕ) (ts vs : List seen.Token) → Lexes text ts → Lexes text vs → ts ≡ vs }
{}

/// A text is read as at most one tree, ignoring brackets.
pub fn one_tree()
    ensures { (text : List ℕ) (t u : Syntax) → Reads text t → Reads text u
        → postfix t ≡ postfix u }
{}

/// A text is read as at most one list of answers, ignoring brackets.
pub fn one_answer_list()
    ensures { (text : List ℕ) (bs cs : List Answer) → ReadsAnswers text bs → ReadsAnswers text cs
        → map told bs ≡ map told cs }
{}

/// The tokens of a text can be written.
pub fn all_writable()
    ensures { (text : List ℕ) (ts : List seen.Token) → Lexes text ts → AllWritable ts }
{}

/// The text of tokens is read as those tokens.
pub fn same_tokens()
    ensures { (ts : List seen.Token) → AllWritable ts → Lexes (written ts) ts }
{}

/// The text of a tree is read as that tree.
pub fn read_back()
    ensures { (t : Syntax) → Fits t → AllWritable (spelling t) → nests (spelling t) ≡ true
        → Reads (written (spelling t)) t }
{}
