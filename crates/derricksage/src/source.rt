//! What a script is read from.
use crate::error::Error;
use std::rt::Files;
use std::{fs, io};

/// What the script of this name, or that on standard input, is called where an error names it.
pub fn name_of(file: Option<&str>) -> &str {
    file.unwrap_or("standard input")
}

/// The text of the script of this name, or that on standard input.
pub fn read_text<'a>(
    rt: &(impl Files + Input + AllocGlobal),
    file: Option<&'a str>,
) -> Result<String, Error<'a>> {
    let text = match file {
        Some(name) => fs::read_to_string(rt, name),
        None => io::read_to_string(rt.alloc(), rt.reader()),
    };
    text.map_err(|error| Error::File {
        name: name_of(file),
        error,
    })
}

/// The bytes of a file that a line of the script `name` names.
pub fn read_bytes<'a>(
    rt: &(impl Files + AllocGlobal),
    name: &'a str,
    line: usize,
    file: &str,
) -> Result<Vec<u8>, Error<'a>> {
    match fs::read(rt, file) {
        Ok(bytes) => Ok(bytes),
        Err(error) => Err(Error::ScriptFile {
            name,
            line,
            file: String::from_str(rt.alloc(), file)?,
            error,
        }),
    }
}
