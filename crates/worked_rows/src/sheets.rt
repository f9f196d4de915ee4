//! Files of rows: read, and checked as a whole before a row is run.

use crate::entry::{Entry, Object};
use crate::error::RowError;
use crate::json::Json;
use crate::rows::{Ground, name_of};
use crate::texts::Texts;
use std::alloc::{AllocError, Global};
use std::{fmt, fs, io};

/// The file of the texts that all files share. It is read first.
const SHARED: &str = "texts.json";

/// How the rows of a file must come out.
#[derive(Clone, Copy)]
pub enum Verdict {
    Ok,
    NotOk,
}

/// A file of rows.
#[derive(Drop)]
pub struct Sheet {
    pub file: String,
    pub verdict: Verdict,
    form: Json,
}

impl Sheet {
    /// The rows of the file.
    pub fn rows(&self) -> &[Json] {
        match self.form.get("rows") {
            Some(Json::List(rows)) => rows.as_slice(),
            _ => &[],
        }
    }
}

/// An error, and where it stands.
#[derive(Drop)]
pub struct Located {
    file: String,
    row: Option<String>,
    error: RowError,
}

impl fmt::Display for Located {
    fn fmt<W: fmt::Write>(&self, f: &mut fmt::Formatter<W>) -> fmt::Result {
        let (file, error) = (&self.file, &self.error);
        match &self.row {
            Some(row) => write!(f, "{file}: {row:?}: {error}"),
            None => write!(f, "{file}: {error}"),
        }
    }
}

impl Located {
    pub fn in_file(alloc: Global, file: &str, error: RowError) -> Located {
        Located {
            file: named(alloc, file),
            row: None,
            error,
        }
    }

    pub fn in_row(alloc: Global, file: &str, row: &str, error: RowError) -> Located {
        Located {
            file: named(alloc, file),
            row: Some(named(alloc, row)),
            error,
        }
    }
}

/// A name, or nothing where there is no memory for it.
fn named(alloc: Global, name: &str) -> String {
    match String::from_str(alloc, name) {
        Ok(name) => name,
        Err(_) => String::new(alloc),
    }
}

/// The names of the files of rows in the working folder, in byte order, that of the shared texts first.
fn sheet_names(rt: &HostRuntime) -> io::Result<Vec<String>> {
    let alloc = rt.alloc();
    let mut others = Vec::new(alloc);
    for entry in fs::read_dir(rt, ".")? {
        let entry = entry?;
        let name = entry.file_name();
        if name.ends_with(".json") && name != SHARED {
            others.push(String::from_str(alloc, name)?)?;
        }
    }
    others.sort()?;
    let mut names = Vec::new(alloc);
    names.push(String::from_str(alloc, SHARED)?)?;
    names.append(&mut others)?;
    Ok(names)
}

/// Reads a file of rows, and adds its texts to the others.
fn read_sheet(rt: &HostRuntime, file: &str, texts: &mut Texts) -> Result<Sheet, RowError> {
    let alloc = rt.alloc();
    let form = read_form(rt, file)?;
    let verdict = take(alloc, &form, texts)?;
    Ok(Sheet {
        file: String::from_str(alloc, file)?,
        verdict,
        form,
    })
}

/// What a file says.
fn read_form(rt: &HostRuntime, file: &str) -> Result<Json, RowError> {
    let text = fs::read_to_string(rt, file)?;
    match serde_json::from_str(rt.alloc(), text.as_str()) {
        Ok(form) => Ok(form),
        Err(error) => Err(RowError::NotJson(format!(in rt.alloc(); "{error}")?)),
    }
}

/// Takes the texts of a file, and says how its rows must come out.
fn take(alloc: Global, form: &Json, texts: &mut Texts) -> Result<Verdict, RowError> {
    let object = object_of(alloc, form)?;
    for (name, text) in object.members("texts")? {
        texts.add(Entry::of(alloc, name.as_str(), text))?;
    }
    let _ = object.list("rows")?;
    verdict_of(object)
}

/// The object that a file is.
fn object_of(alloc: Global, form: &Json) -> Result<Object<'_>, RowError> {
    Entry::of(alloc, "a file", form).object(&["texts", "comes_out", "rows"])
}

fn verdict_of(form: Object<'_>) -> Result<Verdict, RowError> {
    let Some(entry) = form.get("comes_out") else {
        return Ok(Verdict::Ok);
    };
    match entry.text()? {
        "ok" => Ok(Verdict::Ok),
        "not ok" => Ok(Verdict::NotOk),
        _ => Err(entry.is_no("verdict")),
    }
}

/// Looks at each row of a file, so that none is run where one isn't of the form.
fn check(alloc: Global, sheet: &Sheet, texts: &Texts) -> Result<(), Located> {
    let ground = Ground {
        alloc,
        texts,
        root: "",
    };
    for form in sheet.rows() {
        if let Err(error) = ground.row(form) {
            return Err(Located::in_row(alloc, sheet.file.as_str(), name_of(form), error));
        }
    }
    Ok(())
}

/// All files of rows of the working folder, with their texts.
pub fn read_sheets(rt: &HostRuntime) -> Result<(Vec<Sheet>, Texts), Located> {
    let alloc = rt.alloc();
    let names = match sheet_names(rt) {
        Ok(names) => names,
        Err(error) => return Err(Located::in_file(alloc, ".", RowError::System(error))),
    };
    let mut texts = Texts::new(alloc);
    let mut sheets = Vec::new(alloc);
    for name in &names {
        let sheet = match read_sheet(rt, name.as_str(), &mut texts) {
            Ok(sheet) => sheet,
            Err(error) => return Err(Located::in_file(alloc, name.as_str(), error)),
        };
        check(alloc, &sheet, &texts)?;
        if sheets.push(sheet).is_err() {
            return Err(Located::in_file(alloc, name.as_str(), RowError::from(AllocError)));
        }
    }
    Ok((sheets, texts))
}
