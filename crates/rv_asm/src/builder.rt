//! Writing a program line by line.
ghost use Rattle.std.specs.Prelude.{◌≡◌, ◌≢◌, ◌<◌, length, true, false, None, Some, IsSome, IfOk, IfErr, OnOk, OnErr};
ghost use Rattle.rv_isa.specs.Encoding.{IsEncodable};
ghost use Rattle.rv_asm.specs.Assembled.{binding_of, AreAssembled};
ghost use Rattle.rv_asm.specs.Lines.{is_jump};
ghost use Rattle.rv_asm.specs.Refusals.{IsAccepted, IsDraftRefused};
ghost use Rattle.rv_asm.specs.Draft.{empty_draft, with_label, with_line, with_binding};
ghost use Rattle.rv_asm.specs.declared.limits.TheConstants.{PROGRAM_LINES};

use crate::assembly::{binding_of, first_unbound, is_encodable, words_of};
use crate::error::AsmError;
use crate::line::{Line, is_jump};
use rv_isa::Instr;
use std::alloc::{AllocError, Global};
use std::marker::Model;

/// A point of a program that jumps can go to, by its number among the labels of its builder.
#[derive(Clone, Copy, PartialEq, Eq, Debug)]
pub struct Label(u32);

impl Model for Label {
    ghost use Rattle.std.specs.Prelude.{ℕ};

    ghost Value = { ℕ };

    ghost view = { λ l. l.0 };

    ghost inverse = { λ n. record { 0 = n } };
}

/// A program that is being written. Its first word will stand at 0x10054. After a refusal it is as it was.
#[derive(Drop)]
pub struct Builder {
    alloc: Global,
    lines: Vec<Line>,
    bindings: Vec<Option<u32>>,
}

impl Model for Builder {
    ghost use Rattle.rv_asm.specs.Draft.{Draft, IsSoundDraft};

    ghost Value = { Draft };

    ghost view = { λ b. record { lines = b.lines.items; bindings = b.bindings.items } };

    ghost invariant = { λ b. IsSoundDraft (record {
      lines = b.lines.items;
      bindings = b.bindings.items;
    }) };
}

/// The words of a program.
#[derive(Drop)]
pub struct Code {
    words: Vec<u32>,
}

impl Model for Code {
    ghost use Rattle.std.specs.Prelude.{List, ℕ};

    ghost Value = { List ℕ };

    ghost view = { λ c. c.words.items };
}

impl Code {
    /// The words, of which the first stands at 0x10054.
    pub fn words(&self) -> &[u32]
        ensures words { result.now ≡ self.now }
    {
        &self.words
    }
}

impl Builder {
    /// No code yet, and no label.
    pub fn new(alloc: Global) -> Result<Builder, AllocError>
        ensures empty { IfOk result (λ builder. builder ≡ empty_draft) }
    {
        Ok(Builder {
            alloc,
            lines: Vec::new(alloc),
            bindings: Vec::new(alloc),
        })
    }

    /// How many words there are so far.
    pub fn len(&self) -> u32
        ensures count { result ≡ length self.now.lines }
    {
        self.lines.len() as u32
    }

    /// Appends an instruction.
    pub fn emit(&mut self, i: Instr) -> Result<(), AsmError>
        requires { length self.old.lines < PROGRAM_LINES }
        ensures line { OnOk result (self.new ≡ with_line self.old
            (record { instruction = i; to = None })) }
        ensures encodable { OnOk result (IsEncodable i) }
        ensures unchanged { OnErr result (self.new ≡ self.old) }
        ensures refused { IfErr result (λ e. e ≢ AsmError.Memory
            → (e ≡ AsmError.Unencodable (length self.old.lines)) × (IsEncodable i → ⊥)) }
    {
        if !is_encodable(&i) {
            return Err(AsmError::Unencodable { at: self.len() });
        }
        let line = Line {
            instruction: i,
            to: None,
        };
        self.lines.push(line)?;
        Ok(())
    }

    /// Makes a label. Labels are numbered from 0 on.
    pub fn label(&mut self) -> Result<Label, AsmError>
        requires { length self.old.bindings < PROGRAM_LINES }
        ensures made { OnOk result (self.new ≡ with_label self.old) }
        ensures number { IfOk result (λ label. label ≡ length self.old.bindings) }
        ensures unchanged { OnErr result (self.new ≡ self.old) }
        ensures refused { IfErr result (λ e. e ≡ AsmError.Memory) }
    {
        let number = self.bindings.len() as u32;
        self.bindings.push(None)?;
        Ok(Label(number))
    }

    /// Appends a jump whose offset will be that of the label. The offset of `i` is not looked at.
    pub fn jump(&mut self, i: Instr, to: Label) -> Result<(), AsmError>
        requires room { length self.old.lines < PROGRAM_LINES }
        requires label { to < length self.old.bindings }
        ensures line { OnOk result (self.new ≡ with_line self.old
            (record { instruction = i; to = Some to })) }
        ensures jump { OnOk result (is_jump i ≡ true) }
        ensures unchanged { OnErr result (self.new ≡ self.old) }
        ensures refused { IfErr result (λ e. e ≢ AsmError.Memory
            → (e ≡ AsmError.Unencodable (length self.old.lines)) × (is_jump i ≡ false)) }
    {
        if !is_jump(&i) {
            return Err(AsmError::Unencodable { at: self.len() });
        }
        let line = Line {
            instruction: i,
            to: Some(to.0),
        };
        self.lines.push(line)?;
        Ok(())
    }

    /// The label stands for the next word from now on.
    pub fn bind(&mut self, l: Label) -> Result<(), AsmError>
        requires { l < length self.old.bindings }
        ensures bound { OnOk result (self.new ≡ with_binding self.old l) }
        ensures once { OnOk result (binding_of self.old.bindings l ≡ None) }
        ensures unchanged { OnErr result (self.new ≡ self.old) }
        ensures refused { IfErr result (λ e. (e ≡ AsmError.Twice l)
            × IsSome (binding_of self.old.bindings l)) }
    {
        let label = l.0;
        if binding_of(&self.bindings, label).is_some() {
            return Err(AsmError::Twice { label });
        }
        let at = self.len();
        self.bindings[label as usize] = Some(at);
        Ok(())
    }

    /// The words of the program, where each label of a jump is bound and each jump is in reach.
    pub fn finish(self) -> Result<Code, AsmError>
        ensures words { IfOk result (AreAssembled self) }
        ensures accepted { OnOk result (IsAccepted self) }
        ensures refused { IfErr result (IsDraftRefused self) }
    {
        if let Some(label) = first_unbound(&self.lines, &self.bindings) {
            return Err(AsmError::Unbound { label });
        }
        let words = words_of(self.alloc, &self.lines, &self.bindings)?;
        Ok(Code { words })
    }
}
