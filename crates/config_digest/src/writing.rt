//! A section as JSON.

ghost use Rattle.std.specs.Prelude.{◌≡◌, ◌++◌, ◌∷◌, [], map, IfOk, OnOk};
ghost use Rattle.std.specs.List.{flat_map};
ghost use Rattle.config_digest.specs.Written as spec;

use crate::order::in_order;
use config_ini::{Entry, Key, Part, Setting};
use json::Writer;
use std::alloc::{AllocError, Global};
use values::Text;

/// The ending of a key whose value says how to fetch the text.
const FETCH: &str = ".fetch";

fn write_texts(writer: &mut Writer, texts: &[Text]) -> Result<(), AllocError>
    ensures tokens { OnOk result (writer.new.tokens ≡ writer.old.tokens ++ flat_map spec.text_tokens texts.now) }
    ensures before { writer.new.before ≡ writer.old.before }
{
    for text in texts {
        writer.string(text.as_str())?;
    }
    Ok(())
}

fn write_part(writer: &mut Writer, part: &Part) -> Result<(), AllocError>
    ensures tokens { OnOk result (writer.new.tokens ≡ writer.old.tokens ++ spec.part_tokens part.now) }
    ensures before { writer.new.before ≡ writer.old.before }
{
    match part {
        Part::Text(text) => {
            writer.string(text.as_str())?;
            Ok(())
        }
        Part::Texts(texts) => {
            writer.begin_array()?;
            write_texts(writer, texts.as_slice())?;
            writer.end_array()?;
            Ok(())
        }
    }
}

fn write_parts(writer: &mut Writer, parts: &[Part]) -> Result<(), AllocError>
    ensures tokens { OnOk result (writer.new.tokens ≡ writer.old.tokens ++ flat_map spec.part_tokens parts.now) }
    ensures before { writer.new.before ≡ writer.old.before }
{
    for part in parts {
        write_part(writer, part)?;
    }
    Ok(())
}

fn write_list(writer: &mut Writer, parts: &[Part]) -> Result<(), AllocError>
    ensures tokens { OnOk result (writer.new.tokens ≡ writer.old.tokens ++ spec.list_tokens parts.now) }
    ensures before { writer.new.before ≡ writer.old.before }
{
    writer.begin_array()?;
    write_parts(writer, parts)?;
    writer.end_array()?;
    Ok(())
}

fn write_other(writer: &mut Writer) -> Result<(), AllocError>
    ensures tokens { OnOk result (writer.new.tokens ≡ writer.old.tokens ++ spec.other_tokens) }
    ensures before { writer.new.before ≡ writer.old.before }
{
    writer.begin_object()?;
    writer.end_object()?;
    Ok(())
}

fn write_value(writer: &mut Writer, value: &Setting) -> Result<(), AllocError>
    ensures tokens { OnOk result (writer.new.tokens ≡ writer.old.tokens ++ spec.value_tokens value.now) }
    ensures before { writer.new.before ≡ writer.old.before }
{
    match value {
        Setting::Null => {
            writer.null()?;
            Ok(())
        }
        Setting::Truth(is_true) => {
            writer.boolean(*is_true)?;
            Ok(())
        }
        Setting::Text(text) => {
            writer.string(text.as_str())?;
            Ok(())
        }
        Setting::List(parts) => write_list(writer, parts.as_slice()),
        Setting::Other => write_other(writer),
    }
}

/// A key as it is written, in lower case.
fn written_name(alloc: Global, key: &Key) -> Result<Text, AllocError>
    ensures { IfOk result (λ name. name ≡ spec.written_name key.now) }
{
    let mut name = String::from_str(alloc, key.name.as_str())?;
    if key.is_fetched {
        name.push_str(FETCH)?;
    }
    Ok(Text::of(name))
}

fn write_member(writer: &mut Writer, alloc: Global, entry: &Entry) -> Result<(), AllocError>
    ensures tokens { OnOk result (writer.new.tokens ≡ writer.old.tokens ++ spec.member_tokens entry.now) }
    ensures before { writer.new.before ≡ writer.old.before }
{
    let name = written_name(alloc, &entry.key)?;
    writer.key(name.as_str())?;
    write_value(writer, &entry.value)?;
    Ok(())
}

fn write_members(writer: &mut Writer, alloc: Global, entries: &[&Entry]) -> Result<(), AllocError>
    ensures tokens { OnOk result (writer.new.tokens ≡ writer.old.tokens ++ flat_map (λ e. spec.member_tokens e.now) entries.now) }
    ensures before { writer.new.before ≡ writer.old.before }
{
    for entry in entries {
        write_member(writer, alloc, entry)?;
    }
    Ok(())
}

fn write_sorted(writer: &mut Writer, alloc: Global, entries: &[Entry]) -> Result<(), AllocError>
    ensures tokens { OnOk result (writer.new.tokens ≡ writer.old.tokens ++ spec.members_tokens entries.now) }
    ensures before { writer.new.before ≡ writer.old.before }
{
    let sorted = in_order(alloc, entries)?;
    write_members(writer, alloc, sorted.as_slice())?;
    Ok(())
}

/// The keys and values of a section, as an object.
pub(crate) fn write_section(
    writer: &mut Writer,
    alloc: Global,
    entries: &[Entry],
) -> Result<(), AllocError>
    ensures tokens { OnOk result (writer.new.tokens ≡ writer.old.tokens ++ spec.section_tokens entries.now) }
    ensures before { writer.new.before ≡ writer.old.before }
{
    writer.begin_object()?;
    write_sorted(writer, alloc, entries)?;
    writer.end_object()?;
    Ok(())
}
