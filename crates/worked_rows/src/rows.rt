//! Rows, with their texts and paths in place.

use crate::entry::{Entry, Object};
use crate::error::RowError;
use crate::json::Json;
use crate::places::{Held, Places, below, held_of, usual_places};
use crate::plans::plan_of;
use crate::texts::{Texts, rooted};
use children::Ended;
use outside::FaultPlan;
use std::alloc::{AllocError, Global};
use std::collections::BTreeMap;
use values::{Bytes, Text};

/// A row: what stands before it, and its runs.
#[derive(Drop)]
pub struct Row {
    pub places: Places,
    pub runs: Vec<Run>,
}

/// A run: what is edited from outside before it, how it is run and what is expected of it.
#[derive(Drop)]
pub struct Run {
    pub edits: Vec<Edit>,
    pub words: Vec<Text>,
    pub plans: BTreeMap<String, FaultPlan>,
    /// How the programs end that are run, the first of them first.
    pub programs: Vec<Ended>,
    /// What standard input holds.
    pub input: Vec<u8>,
    pub room: Option<u64>,
    pub wanted: Wanted,
}

/// An edit from outside between two runs.
#[derive(Drop)]
pub enum Edit {
    /// The folder goes.
    Gone(String),
    /// The folder is made where it isn't there.
    There(String),
    /// A file becomes this.
    File {
        path: String,
        name: String,
        new: Option<Vec<u8>>,
    },
}

/// The names of files by the paths of their folders.
pub type Names = BTreeMap<String, Vec<String>>;

/// What is expected of a run. Each place that `then` doesn't name is to be as before.
#[derive(Drop)]
pub struct Wanted {
    pub exit: u8,
    pub out: Vec<u8>,
    pub err: Vec<u8>,
    pub then: Places,
    /// Places as before, and without an own write.
    pub keeps: Vec<String>,
    /// The own writes of each place, in order; a place that isn't named has none.
    pub writes: Option<Names>,
    /// The reads of each place, in order.
    pub reads: Option<Names>,
    /// The words of each program that is run, in order.
    pub ran: Option<Vec<Vec<String>>>,
}

/// What rows are settled with.
#[derive(Clone, Copy)]
pub struct Ground<'a> {
    pub alloc: Global,
    pub texts: &'a Texts,
    pub root: &'a str,
}

impl Ground<'_> {
    fn path(self, path: &str) -> Result<String, AllocError> {
        below(self.alloc, self.root, path)
    }

    /// A path below the root, which must be one of these places.
    fn known(self, path: &str, places: &Places) -> Result<String, RowError> {
        let made = self.path(path)?;
        if places.contains_key(made.as_str()) {
            Ok(made)
        } else {
            Err(RowError::NoPlace(String::from_str(self.alloc, path)?))
        }
    }

    /// What a member of an object says.
    fn entry(self, member: &(String, Json)) -> Entry<'_> {
        Entry::of(self.alloc, member.0.as_str(), &member.1)
    }

    fn held(self, form: Entry<'_>) -> Result<Option<Held>, RowError> {
        held_of(self.alloc, form, self.texts, self.root)
    }

    /// The text that a file gets from outside: none where it goes.
    pub fn new_text(self, form: Entry<'_>) -> Result<Option<Vec<u8>>, RowError> {
        match form.value {
            Json::Null => Ok(None),
            _ => Ok(Some(self.texts.bytes(form.text()?, self.root)?)),
        }
    }

    /// What a row says of its places, in place of the usual.
    fn places(self, row: Object<'_>) -> Result<Places, RowError> {
        let mut places = usual_places(self.alloc, self.texts, self.root)?;
        for member in row.members("places")? {
            let held = self.held(self.entry(member))?;
            places.insert(self.path(member.0.as_str())?, held)?;
        }
        Ok(places)
    }

    fn edits_of_folder(self, form: Entry<'_>) -> Result<Vec<Edit>, RowError> {
        let mut edits = Vec::new(self.alloc);
        if let Json::Null = form.value {
            edits.push(Edit::Gone(self.path(form.key)?))?;
            return Ok(edits);
        }
        edits.push(Edit::There(self.path(form.key)?))?;
        for member in form.members()? {
            edits.push(Edit::File {
                path: self.path(form.key)?,
                name: member.0.clone()?,
                new: self.new_text(self.entry(member))?,
            })?;
        }
        Ok(edits)
    }

    fn edits(self, run: Object<'_>, places: &Places) -> Result<Vec<Edit>, RowError> {
        let mut edits = Vec::new(self.alloc);
        for member in run.members("edits")? {
            let folder = self.entry(member);
            let _ = self.known(folder.key, places)?;
            for edit in self.edits_of_folder(folder)? {
                edits.push(edit)?;
            }
        }
        Ok(edits)
    }

    fn words(self, run: Object<'_>) -> Result<Vec<Text>, RowError> {
        let mut words = Vec::new(self.alloc);
        match run.get("words") {
            Some(given) => {
                for word in &given.texts()? {
                    words.push(Text::of(rooted(self.alloc, word.as_str(), self.root)?))?;
                }
            }
            None => {
                for word in ["-c", "<root>/c/config", "sync"] {
                    words.push(Text::of(rooted(self.alloc, word, self.root)?))?;
                }
            }
        }
        Ok(words)
    }

    /// What is printed: a named text, or lines, each ended by LF.
    fn printed(self, form: Option<Entry<'_>>) -> Result<Vec<u8>, RowError> {
        let Some(form) = form else {
            return Ok(Vec::new(self.alloc));
        };
        if let Json::Text(name) = form.value {
            return self.texts.bytes(name.as_str(), self.root);
        }
        let mut text = String::new(self.alloc);
        for line in &form.texts()? {
            text.push_str(rooted(self.alloc, line.as_str(), self.root)?.as_str())?;
            text.push_str("\n")?;
        }
        Ok(text.into_bytes())
    }

    fn program(self, form: Entry<'_>) -> Result<Ended, RowError> {
        let program = form.object(&["status", "prints"])?;
        let status = match program.get("status") {
            None => 0,
            Some(status) => match i32::try_from(status.number()?) {
                Ok(number) => number,
                Err(_) => return Err(status.is_no("status of a program")),
            },
        };
        Ok(Ended {
            status,
            output: Bytes::of(self.printed(program.get("prints"))?),
        })
    }

    fn programs(self, run: Object<'_>) -> Result<Vec<Ended>, RowError> {
        let mut programs = Vec::new(self.alloc);
        for form in run.list("programs")? {
            let program = Entry::of(self.alloc, "programs", form);
            programs.push(self.program(program)?)?;
        }
        Ok(programs)
    }

    /// The words of programs.
    fn ran(self, form: Option<Entry<'_>>) -> Result<Option<Vec<Vec<String>>>, RowError> {
        let Some(form) = form else {
            return Ok(None);
        };
        let mut ran = Vec::new(self.alloc);
        for words in form.list()? {
            ran.push(Entry::of(self.alloc, "ran", words).texts()?)?;
        }
        Ok(Some(ran))
    }

    fn plans(
        self,
        run: Object<'_>,
        places: &Places,
    ) -> Result<BTreeMap<String, FaultPlan>, RowError> {
        let mut plans = BTreeMap::new(self.alloc);
        for member in run.members("plans")? {
            let path = self.known(member.0.as_str(), places)?;
            plans.insert(path, plan_of(self.entry(member), self)?)?;
        }
        Ok(plans)
    }

    fn names(self, form: Option<Entry<'_>>, places: &Places) -> Result<Option<Names>, RowError> {
        let Some(form) = form else {
            return Ok(None);
        };
        let mut names = BTreeMap::new(self.alloc);
        for member in form.members()? {
            let path = self.known(member.0.as_str(), places)?;
            names.insert(path, self.entry(member).texts()?)?;
        }
        Ok(Some(names))
    }

    fn then(self, run: Object<'_>, places: &Places) -> Result<Places, RowError> {
        let mut then = BTreeMap::new(self.alloc);
        for member in run.members("then")? {
            let path = self.known(member.0.as_str(), places)?;
            then.insert(path, self.held(self.entry(member))?)?;
        }
        Ok(then)
    }

    /// The places that a run must keep. None of them may be in `then`.
    fn keeps(
        self,
        run: Object<'_>,
        places: &Places,
        then: &Places,
    ) -> Result<Vec<String>, RowError> {
        let mut keeps = Vec::new(self.alloc);
        let Some(form) = run.get("keeps") else {
            return Ok(keeps);
        };
        for path in form.texts()? {
            let known = self.known(path.as_str(), places)?;
            if then.contains_key(known.as_str()) {
                return Err(RowError::PlaceTwice(path));
            }
            keeps.push(known)?;
        }
        Ok(keeps)
    }

    fn wanted(self, run: Object<'_>, places: &Places) -> Result<Wanted, RowError> {
        if expects_nothing(run) {
            return Err(RowError::ExpectsNothing);
        }
        let then = self.then(run, places)?;
        let keeps = self.keeps(run, places, &then)?;
        Ok(Wanted {
            exit: exit_of(run)?,
            out: self.printed(run.get("out"))?,
            err: self.printed(run.get("err"))?,
            then,
            keeps,
            writes: self.names(run.get("writes"), places)?,
            reads: self.names(run.get("reads"), places)?,
            ran: self.ran(run.get("ran"))?,
        })
    }

    fn run(self, form: Entry<'_>, places: &Places) -> Result<Run, RowError> {
        let run = form.object(&[
            "edits", "words", "plans", "programs", "input", "room", "exit", "out", "err", "then",
            "keeps", "writes", "reads", "ran",
        ])?;
        let room = match run.get("room") {
            Some(room) => Some(room.number()?),
            None => None,
        };
        Ok(Run {
            edits: self.edits(run, places)?,
            words: self.words(run)?,
            plans: self.plans(run, places)?,
            programs: self.programs(run)?,
            input: self.printed(run.get("input"))?,
            room,
            wanted: self.wanted(run, places)?,
        })
    }

    /// A row with its texts and paths in place.
    pub fn row(self, form: &Json) -> Result<Row, RowError> {
        let row = Entry::of(self.alloc, "rows", form).object(&["name", "places", "runs"])?;
        let _ = row.must("name")?.text()?;
        let places = self.places(row)?;
        let mut runs = Vec::new(self.alloc);
        for value in row.list("runs")? {
            let run = Entry::of(self.alloc, "runs", value);
            runs.push(self.run(run, &places)?)?;
        }
        if runs.is_empty() {
            return Err(RowError::NoRun);
        }
        Ok(Row { places, runs })
    }
}

/// The name of a row, or nothing where it has none.
pub fn name_of(form: &Json) -> &str {
    match form.get("name") {
        Some(Json::Text(name)) => name.as_str(),
        _ => "",
    }
}

fn exit_of(run: Object<'_>) -> Result<u8, RowError> {
    let Some(exit) = run.get("exit") else {
        return Ok(0);
    };
    match u8::try_from(exit.number()?) {
        Ok(status) => Ok(status),
        Err(_) => Err(exit.is_no("exit status")),
    }
}

fn expects_nothing(run: Object<'_>) -> bool {
    let keys = [
        "exit", "out", "err", "then", "keeps", "writes", "reads", "ran",
    ];
    !keys.iter().any(|key| run.has(*key))
}

impl Run {
    /// Whether only devices in memory can do what the run asks for.
    pub fn wants_memory(&self) -> bool {
        !self.plans.is_empty() || !self.programs.is_empty() || self.room.is_some()
    }
}

impl Wanted {
    /// Whether it speaks of own writes or reads, or of programs that were run, which only devices in memory tell.
    pub fn is_of_trails(&self) -> bool {
        !self.keeps.is_empty()
            || self.writes.is_some()
            || self.reads.is_some()
            || self.ran.is_some()
    }
}
