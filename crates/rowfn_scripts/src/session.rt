//! The state of a running script.
ghost use Rattle.std.specs.Prelude.{◌≡◌, OnOk, Some, map, string_bytes};
ghost use Rattle.rowfn_scripts.specs.Words.{Answers, AnswersUnlessMemory, rows, column, get};
ghost use Rattle.rowfn_scripts.specs.Words.{literal, call, show, optimize, run, run_after};
ghost use Rattle.rowfn_scripts.specs.Words.{command_in, command_of};
ghost use Rattle.rowfn_scripts.specs.Words.{refuses, fresh, least_count, steps_text, ShowsTop};
ghost use Rattle.rowfn_scripts.specs.Words.{RunsTop, RunsAfterTop, Steps, MakesStep, after_text};
ghost use Rattle.rowfn_scripts.specs.Words.{column_line, pushed};
ghost use Rattle.rowfn_scripts.specs.Words.{script_meaning, script_rules};

use crate::scope::Scope;
use crate::stop::Stop;
use rowfn_lines::Line;
use rowfn_lines::parse::parse;
use std::alloc::{AllocError, Global};
use std::marker::Model;
use vortex_columns::{Arity, Column, ExecutionCtx, Scalar, VortexError, VortexResult};
use vortex_functions::{BoundExpression, NoCustom, ScalarFnRef};
use vortex_rewriting::{Optimized, Rewrite, run};

/// The row count, the columns and the fields that name them, the stack of trees, and the printed
/// text.
#[derive(Drop)]
pub struct Session {
    row_count: Option<usize>,
    fields: Scope,
    columns: Vec<Column>,
    stack: Vec<BoundExpression<NoCustom>>,
    out: Vec<u8>,
}

impl Model for Session {
    ghost use Rattle.vortex_functions.specs.declared.custom.NoCustom.{NoCustom};
    ghost use Rattle.vortex_interface.specs.declared.options.EmptyOptions.{EmptyOptions};
    ghost use Rattle.rowfn_scripts.specs.Sessions.{SessionView};
    ghost use Rattle.rowfn_scripts.specs.SessionCodes.{coded_script};

    ghost Value = { SessionView NoCustom EmptyOptions };

    ghost coded = { coded_script };

    ghost use Rattle.std.specs.Prelude.{reverse};

    ghost view = { λ a. record {
      row_count = a.row_count;
      fields = a.fields;
      columns = a.columns.items;
      stack = reverse a.stack.items;
      printed = a.out.items;
    } };
}

/// The number of steps of a run, and whether no rule is left, as a line. E9 where an allocation
/// fails.
fn steps_text(alloc: Global, steps: u64, done: bool) -> VortexResult<String>
    ensures { AnswersUnlessMemory result (λ text. string_bytes text ≡ steps_text steps done) }
{
    Ok(format!(in alloc; "steps {steps} done {done}\n")?)
}

/// The text of a column, as a line. E9 where an allocation fails.
fn column_line(alloc: Global, column: &Column) -> VortexResult<String>
    ensures { AnswersUnlessMemory result (λ text. string_bytes text ≡ column_line column.now) }
{
    let mut line = column.text(alloc)?;
    line.push_str("\n")?;
    Ok(line)
}

/// How many trees a function takes: the least count that its arity allows.
fn least_count(arity: Arity) -> usize
    ensures { result ≡ least_count arity }
{
    match arity {
        Arity::Exact(wanted) => wanted,
        Arity::Variadic { min, .. } => min,
    }
}

impl Session {
    /// Nothing yet; allocates nothing.
    pub fn new(alloc: Global) -> Session
        ensures { result ≡ fresh }
    {
        Session {
            row_count: None,
            fields: Scope::new(alloc),
            columns: Vec::new(alloc),
            stack: Vec::new(alloc),
            out: Vec::new(alloc),
        }
    }

    /// The printed text.
    pub fn into_out(self) -> Vec<u8>
        ensures { result.items ≡ self.printed }
    {
        let Session { out, .. } = self;
        out
    }

    /// Pushes a tree. Fails only where an allocation does.
    fn push(&mut self, tree: BoundExpression<NoCustom>) -> Result<(), AllocError>
        ensures pushed { OnOk result (self.new ≡ pushed tree self.old.stack self.old) }
        ensures printed { self.new.printed ≡ self.old.printed }
    {
        self.stack.push(tree)?;
        Ok(())
    }

    fn begin(&mut self, count: usize) -> Result<(), Stop>
        ensures { MakesStep (Steps (rows count)) self.old result self.new }
    {
        if self.row_count.is_some() {
            return Err(Stop::Malformed);
        }
        self.row_count = Some(count);
        Ok(())
    }

    fn add_column(&mut self, alloc: Global, name: &str, added: Column) -> Result<(), Stop>
        ensures { MakesStep (Steps (column name.now added))
            self.old result self.new }
    {
        let Some(count) = self.row_count else {
            return Err(Stop::Malformed);
        };
        if added.len() != count {
            return Err(Stop::Malformed);
        }
        if self.fields.find(name).is_some() {
            return Err(Stop::Malformed);
        }
        let dtype = added.dtype().try_clone(alloc)?;
        self.columns.push(added)?;
        self.fields.add(alloc, name, dtype)?;
        Ok(())
    }

    fn push_leaf(&mut self, alloc: Global, name: &str) -> Result<(), Stop>
        ensures { MakesStep (Steps (get name.now)) self.old result self.new }
    {
        if self.row_count.is_none() {
            return Err(Stop::Malformed);
        }
        let Some(place) = self.fields.find(name) else {
            return Err(Stop::Refused(VortexError::ScopeMismatch));
        };
        let leaf = BoundExpression::column_at(alloc, self.fields.fields(), place)?;
        self.push(leaf)?;
        Ok(())
    }

    fn push_literal(&mut self, alloc: Global, scalar: Scalar) -> Result<(), Stop>
        ensures { MakesStep (Steps (literal scalar)) self.old result self.new }
    {
        if self.row_count.is_none() {
            return Err(Stop::Malformed);
        }
        self.push(BoundExpression::lit(alloc, scalar))?;
        Ok(())
    }

    fn push_call(
        &mut self,
        alloc: Global,
        words: &[&str],
        escape: Option<Option<char>>,
    ) -> Result<(), Stop>
        ensures { MakesStep (Steps (call (map (λ w. w.now) words.now) escape))
            self.old result self.new }
    {
        if self.row_count.is_none() {
            return Err(Stop::Malformed);
        }
        let Some(function) = ScalarFnRef::<NoCustom>::called(words, escape) else {
            return Err(Stop::Malformed);
        };
        let count = least_count(function.signature().arity);
        if self.stack.len() < count {
            return Err(Stop::Malformed);
        }
        let children = self.stack.split_off(self.stack.len() - count)?;
        let tree = BoundExpression::try_new(alloc, function, children)?;
        self.push(tree)?;
        Ok(())
    }

    /// The text of the last tree's column; none if there is no tree.
    fn top_text(&self, alloc: Global, count: usize) -> VortexResult<Option<String>>
        ensures { Answers result
            (λ text. RunsTop script_meaning (Some count) self.now.stack self.now
            (after_text self.now text))
            (λ e. RunsTop script_meaning (Some count) self.now.stack self.now (refuses e)) }
    {
        let Some(tree) = self.stack.last() else {
            return Ok(None);
        };
        let mut ctx = ExecutionCtx::new(alloc);
        let column = tree.execute(&self.columns, count, &mut ctx)?;
        Ok(Some(column_line(alloc, &column)?))
    }

    fn run(&mut self, alloc: Global) -> Result<(), Stop>
        ensures { MakesStep (Steps run) self.old result self.new }
    {
        let Some(count) = self.row_count else {
            return Err(Stop::Malformed);
        };
        let Some(text) = self.top_text(alloc, count)? else {
            return Err(Stop::Malformed);
        };
        self.out.extend_from_slice(text.as_bytes())?;
        Ok(())
    }

    /// The text of the column of the tree after a run of at most `limit` steps from the last one;
    /// none if there is no tree.
    fn text_after(&self, alloc: Global, count: usize, limit: u64) -> VortexResult<Option<String>>
        ensures { Answers result
            (λ text. RunsAfterTop script_meaning script_rules limit (Some count) self.now.stack
            self.now (after_text self.now text))
            (λ e. RunsAfterTop script_meaning script_rules limit (Some count) self.now.stack
            self.now (refuses e)) }
    {
        let Some(old) = self.stack.last() else {
            return Ok(None);
        };
        let mut ctx = ExecutionCtx::new(alloc);
        let column = run(old, &self.columns, count, limit, &mut ctx)?;
        Ok(Some(column_line(alloc, &column)?))
    }

    fn run_after(&mut self, alloc: Global, limit: u64) -> Result<(), Stop>
        ensures { MakesStep (Steps (run_after limit)) self.old result self.new }
    {
        let Some(count) = self.row_count else {
            return Err(Stop::Malformed);
        };
        let Some(text) = self.text_after(alloc, count, limit)? else {
            return Err(Stop::Malformed);
        };
        self.out.extend_from_slice(text.as_bytes())?;
        Ok(())
    }

    /// A run of rules from the last tree, of at most as many steps as it weighs; the result
    /// replaces the tree.
    fn optimize(&mut self, alloc: Global) -> Result<(), Stop>
        ensures { MakesStep (Steps optimize) self.old result self.new }
    {
        if self.row_count.is_none() {
            return Err(Stop::Malformed);
        }
        let Some(old) = self.stack.pop() else {
            return Err(Stop::Malformed);
        };
        let Optimized { tree, steps, done } = old.optimize_recursive(alloc, old.weight())?;
        let text = steps_text(alloc, steps, done)?;
        self.stack.push(tree)?;
        self.out.extend_from_slice(text.as_bytes())?;
        Ok(())
    }

    /// The text of the last tree, with a newline; none if there is no tree.
    fn printed_text(&self, alloc: Global, count: usize) -> VortexResult<Option<String>>
        ensures { AnswersUnlessMemory result
            (λ text. ShowsTop (Some count) self.now.stack self.now (after_text self.now text)) }
    {
        let Some(shown) = self.stack.last() else {
            return Ok(None);
        };
        let mut text = shown.sql_text(alloc)?;
        text.push_str("\n")?;
        Ok(Some(text))
    }

    fn show(&mut self, alloc: Global) -> Result<(), Stop>
        ensures { MakesStep (Steps show) self.old result self.new }
    {
        let Some(count) = self.row_count else {
            return Err(Stop::Malformed);
        };
        let Some(shown) = self.printed_text(alloc, count)? else {
            return Err(Stop::Malformed);
        };
        self.out.extend_from_slice(shown.as_bytes())?;
        Ok(())
    }

    /// Executes the command, or stops, as `read_line` does.
    pub fn step(&mut self, alloc: Global, line: Line<'_>) -> Result<(), Stop>
        ensures { MakesStep (Steps (command_in line.entry))
            self.old result self.new }
    {
        match line {
            Line::Nothing => Ok(()),
            Line::Malformed => Err(Stop::Malformed),
            Line::Rows(count) => self.begin(count),
            Line::Column(name, column) => self.add_column(alloc, name, column),
            Line::Get(name) => self.push_leaf(alloc, name),
            Line::Literal(scalar) => self.push_literal(alloc, scalar),
            Line::Call(words, escape) => self.push_call(alloc, &words, escape),
            Line::Show => self.show(alloc),
            Line::Optimize => self.optimize(alloc),
            Line::Run => self.run(alloc),
            Line::RunAfter(limit) => self.run_after(alloc, limit),
        }
    }

    /// Executes the line, or stops: if the line is malformed, if its call fails, or if memory runs
    /// out. The printed text is kept.
    pub fn read_line(&mut self, alloc: Global, line: &[u8]) -> Result<(), Stop>
        ensures { MakesStep (Steps (command_of line.now))
            self.old result self.new }
    {
        let line = parse(alloc, line)?;
        self.step(alloc, line)
    }
}
