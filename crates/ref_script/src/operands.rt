//! The words of a line behind its name, one by one.

ghost use Rattle.std.specs.Prelude.{◌≡◌, ◌∷◌, [], ◌||◌, not, is_some, MatchResult, Some, None};
ghost use Rattle.std.specs.Prelude.{List, ℕ, false, IfSome};
ghost use Rattle.ref_base.specs.Steps.{urgency_name};
ghost use Rattle.ref_base.specs.Texts as texts;
ghost use Rattle.ref_script.specs.Lines.{words_of};
ghost use Rattle.ref_script.specs.Numerals.{number_behind};
ghost use Rattle.ref_script.specs.OperandReading.{reading, unread, first_of, behind_first, is_over, fault_at_end};
ghost use Rattle.ref_script.specs.OperandReading.{IsRead};
ghost use Rattle.ref_script.specs.StepForms.{Slot, Queue, QueueOrNone, Number, Clock, UrgencyName};

use crate::lines::{is_name, next_word};
use crate::numerals::{long_number, short_number};
use crate::script_step::ScriptStep;
use ref_base::{QueueNo, SlotNo, Urgency};
use ref_text::LineFault;

/// Whether no word is left.
pub fn ends(line: &[u8]) -> Result<(), LineFault>
    ensures { MatchResult result (λ _. words_of line.now ≡ [])
        (λ fault. (word : List ℕ) × (words : List (List ℕ)) × (words_of line.now ≡ word ∷ words) ×
        (fault ≡ LineFault.ExtraWord)) }
{
    match next_word(line) {
        None => Ok(()),
        Some(_) => Err(LineFault::ExtraWord),
    }
}

/// The words behind the name of a step. Each is taken for the operand that it should be. For one that is missing, or
/// isn't of its form, another value stands in, and the end tells the fault.
#[derive(Drop)]
pub struct Operands<'a> {
    rest: &'a [u8],
    is_missing: bool,
    is_bad: bool,
}

impl<'a> Operands<'a> {
    /// The operands in the line behind a name.
    pub fn new(line: &'a [u8]) -> Operands<'a>
        ensures { reading result ≡ unread (words_of line.entry.now) }
    {
        Operands {
            rest: line,
            is_missing: false,
            is_bad: false,
        }
    }

    /// The number of an actor, and the operands in the line behind the name of its step.
    pub fn of_actor(number: &[u8], line: &'a [u8]) -> (u32, Operands<'a>)
        ensures { IsRead (Number ∷ []) (unread (number.now ∷ words_of line.entry.now)) (reading result.1)
            (texts.number result.0 ∷ []) }
    {
        let mut operands = Operands::new(line);
        let number = operands.or_bad(short_number(number), 0);
        (number, operands)
    }

    /// Takes a slot.
    pub fn slot(&mut self) -> SlotNo
        ensures { IsRead (Slot ∷ []) (reading self.old) (reading self.new) (texts.slot result ∷ []) }
    {
        let word = self.word();
        SlotNo(self.or_bad(number_behind(b's', word), 0))
    }

    /// Takes a queue.
    pub fn queue(&mut self) -> QueueNo
        ensures { IsRead (Queue ∷ []) (reading self.old) (reading self.new) (texts.queue result ∷ []) }
    {
        let word = self.word();
        QueueNo(self.or_bad(number_behind(b'q', word), 0))
    }

    /// Takes a queue, or `None` where the word is `-`.
    pub fn queue_or_none(&mut self) -> Option<QueueNo>
        ensures { IsRead (QueueOrNone ∷ []) (reading self.old) (reading self.new) (texts.queue_or_none result ∷ []) }
    {
        let word = self.word();
        if is_name(word, b"-") {
            return None;
        }
        Some(QueueNo(self.or_bad(number_behind(b'q', word), 0)))
    }

    /// Takes a number below 2^32.
    pub fn number(&mut self) -> u32
        ensures { IsRead (Number ∷ []) (reading self.old) (reading self.new) (texts.number result ∷ []) }
    {
        let word = self.word();
        self.or_bad(short_number(word), 0)
    }

    /// Takes a clock.
    pub fn clock(&mut self) -> u64
        ensures { IsRead (Clock ∷ []) (reading self.old) (reading self.new) (texts.Long result ∷ []) }
    {
        let word = self.word();
        self.or_bad(long_number(word), 0)
    }

    /// Takes the name of an urgency.
    pub fn urgency(&mut self) -> Urgency
        ensures { IsRead (UrgencyName ∷ []) (reading self.old) (reading self.new)
            (texts.Letters (urgency_name result) ∷ []) }
    {
        let word = self.word();
        if is_name(word, b"normal") {
            return Urgency::Normal;
        }
        self.is_bad = self.is_bad || !is_name(word, b"urgent");
        Urgency::Urgent
    }

    /// The step, where no more words are wanted, or the first fault by kind.
    pub fn end(&self, step: ScriptStep) -> Result<ScriptStep, LineFault>
        ensures { MatchResult result (λ ended. (ended ≡ step) × (fault_at_end (reading self.now) ≡ None))
            (λ fault. fault_at_end (reading self.now) ≡ Some fault) }
    {
        if self.is_missing {
            return Err(LineFault::MissingWord);
        }
        if self.is_bad {
            return Err(LineFault::BadWord);
        }
        ends(self.rest)?;
        Ok(step)
    }

    /// Takes the next word, or no letter where it is missing.
    fn word(&mut self) -> &'a [u8]
        ensures word { result.now ≡ first_of (words_of self.old.rest.now) }
        ensures rest { words_of self.new.rest.now ≡ behind_first (words_of self.old.rest.now) }
        ensures missing { self.new.is_missing ≡ (self.old.is_missing || is_over (words_of self.old.rest.now)) }
        ensures bad { self.new.is_bad ≡ self.old.is_bad }
    {
        match next_word(self.rest) {
            Some((word, rest)) => {
                self.rest = rest;
                word
            }
            None => {
                self.is_missing = true;
                b"".as_slice()
            }
        }
    }

    /// What was read, or the other value where a word is bad.
    fn or_bad<T: Copy>(&mut self, read: Option<T>, other: T) -> T
        ensures value { IfSome read (λ value. result ≡ value) }
        ensures rest { self.new.rest ≡ self.old.rest }
        ensures missing { self.new.is_missing ≡ self.old.is_missing }
        ensures bad { self.new.is_bad ≡ (self.old.is_bad || not (is_some read)) }
    {
        match read {
            Some(value) => value,
            None => {
                self.is_bad = true;
                other
            }
        }
    }
}

/// The number that stands behind a letter.
fn number_behind(letter: u8, word: &[u8]) -> Option<u32>
    ensures { result ≡ number_behind (letter ∷ []) word.now }
{
    match word.split_first() {
        Some((first, number)) if *first == letter => short_number(number),
        _ => None,
    }
}
