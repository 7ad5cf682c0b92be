//! What is printed.
use lj_book::{Call, Entry, Reply};
use lj_clause::{Formula, Lemma, Lit, NoMemory};
use lj_text::{Addition, Line, Numbers, NumbersIter, Step};
use std::alloc::Global;

/// The lines that are printed, and one that isn't whole yet.
#[derive(Drop)]
pub struct Out {
    alloc: Global,
    text: String,
    line: String,
}

impl Out {
    pub fn new(alloc: Global) -> Out {
        Out {
            alloc,
            text: String::new(alloc),
            line: String::new(alloc),
        }
    }

    /// The whole lines.
    pub fn text(&self) -> &str {
        self.text.as_str()
    }

    /// The line that isn't whole yet.
    pub fn line_so_far(&self) -> &str {
        self.line.as_str()
    }

    pub fn allocator(&self) -> Global {
        self.alloc
    }

    /// Puts a text behind the others. One that ends with LF ends the line.
    pub fn put(&mut self, text: &str) -> Result<(), NoMemory> {
        self.line.push_str(text)?;
        if text.ends_with('\n') {
            self.text.push_str(self.line.as_str())?;
            self.line.clear();
        }
        Ok(())
    }

    /// A blank and a number.
    pub fn number(&mut self, number: u64) -> Result<(), NoMemory> {
        let text = format!(in self.alloc; " {number}")?;
        self.put(&text)
    }

    /// Numbers, each behind a blank.
    pub fn numbers(&mut self, numbers: NumbersIter<'_>) -> Result<(), NoMemory> {
        for number in numbers {
            self.number(number)?;
        }
        Ok(())
    }

    fn literal(&mut self, lit: Lit) -> Result<(), NoMemory> {
        let text = format!(in self.alloc; " {lit}")?;
        self.put(&text)
    }

    /// Literals, each behind a blank, and 0.
    pub fn literals(&mut self, lits: &[Lit]) -> Result<(), NoMemory> {
        for lit in lits {
            self.literal(*lit)?;
        }
        self.put(" 0")
    }

    /// A lemma, its pivot first, and 0.
    fn lemma(&mut self, lemma: &Lemma) -> Result<(), NoMemory> {
        let pivot = lemma.pivot();
        if let Some(lit) = pivot {
            self.literal(lit)?;
        }
        for lit in lemma.clause().lits() {
            if pivot != Some(*lit) {
                self.literal(*lit)?;
            }
        }
        self.put(" 0")
    }

    /// An addition as a line has it.
    fn addition(&mut self, addition: &Addition) -> Result<(), NoMemory> {
        self.number(addition.number)?;
        self.lemma(&addition.lemma)?;
        self.numbers(addition.hints.iter())?;
        for group in addition.groups.iter() {
            self.put(" -")?;
            let candidate = group.candidate;
            let text = format!(in self.alloc; "{candidate}")?;
            self.put(&text)?;
            self.numbers(group.hints)?;
        }
        self.put(" 0")
    }

    /// Numbers that are given up.
    fn deletion(&mut self, numbers: &Numbers) -> Result<(), NoMemory> {
        self.put(" d")?;
        self.numbers(numbers.iter())?;
        self.put(" 0")
    }

    /// A step of a proof in which the greatest number by then is this.
    pub fn step(&mut self, step: &Step, greatest: u64) -> Result<(), NoMemory> {
        match step {
            Step::Add(addition) => self.addition(addition),
            Step::Delete { numbers } => {
                self.number(greatest)?;
                self.deletion(numbers)
            }
        }
    }

    /// A line of a proof, without the number of a deletion.
    pub fn line(&mut self, line: &Line) -> Result<(), NoMemory> {
        match line {
            Line::Add(addition) => self.addition(addition),
            Line::Delete(numbers) => self.deletion(numbers),
            Line::Import { number, clause } => {
                self.number(*number)?;
                self.put(" i")?;
                self.literals(clause.lits())
            }
        }
    }

    fn call(&mut self, call: &Call) -> Result<(), NoMemory> {
        match call {
            Call::Add { own, lemma } => {
                self.put(" add")?;
                self.number(*own)?;
                self.lemma(lemma)
            }
            Call::Drop { numbers } => {
                self.put(" drop")?;
                self.numbers(numbers.iter())?;
                self.put(" 0")
            }
            Call::Adopt { own, joint } => {
                self.put(" adopt")?;
                self.number(*own)?;
                self.number(*joint)
            }
            Call::Import { own, clause } => {
                self.put(" import")?;
                self.number(*own)?;
                self.literals(clause.lits())
            }
            Call::Leave => self.put(" leave"),
        }
    }

    /// An entry of a history in which the greatest number by then is this.
    pub fn entry(&mut self, entry: &Entry, greatest: u64) -> Result<(), NoMemory> {
        self.put("entry")?;
        self.number(u64::from(entry.seat))?;
        self.call(&entry.call)?;
        if let Some(step) = &entry.step {
            self.put(" :")?;
            self.step(step, greatest)?;
        }
        self.put("\n")
    }

    /// A place, or that there is none.
    pub fn verdict(&mut self, verdict: Option<u64>) -> Result<(), NoMemory> {
        match verdict {
            Some(place) => {
                self.put("verdict")?;
                self.number(place)?;
                self.put("\n")
            }
            None => self.put("no verdict\n"),
        }
    }

    /// The number of variables and the clauses.
    pub fn formula(&mut self, formula: &Formula) -> Result<(), NoMemory> {
        let variables = formula.variables();
        let text = format!(in self.alloc; "{variables}:")?;
        self.put(&text)?;
        for number in 1..u64::MAX {
            let Some(clause) = formula.clause(number) else {
                break;
            };
            self.literals(clause.lits())?;
        }
        Ok(())
    }

    /// A reply, on a line.
    pub fn reply(&mut self, reply: &Reply) -> Result<(), NoMemory> {
        let text = match reply {
            Reply::Taken => String::from_str(self.alloc, "Taken")?,
            Reply::Closed => String::from_str(self.alloc, "Closed")?,
            Reply::Open => String::from_str(self.alloc, "Open")?,
            Reply::Nothing => String::from_str(self.alloc, "Nothing")?,
            Reply::Stuck(place) => format!(in self.alloc; "Stuck({place})")?,
            Reply::Added(added) => {
                let (place, joint) = (added.place, added.joint);
                format!(in self.alloc; "Added({place}, {joint})")?
            }
            Reply::Dropped(dropped) => {
                let (place, count) = (dropped.place, dropped.count);
                format!(in self.alloc; "Dropped({place}, {count})")?
            }
            Reply::Adopted(place) => format!(in self.alloc; "Adopted({place})")?,
            Reply::Imported(imported) => {
                let (place, joint) = (imported.place, imported.joint);
                format!(in self.alloc; "Imported({place}, {joint})")?
            }
            Reply::Left(place) => format!(in self.alloc; "Left({place})")?,
            Reply::Refused(refusal) => format!(in self.alloc; "Refused({refusal})")?,
        };
        self.put(&text)?;
        self.put("\n")
    }
}
