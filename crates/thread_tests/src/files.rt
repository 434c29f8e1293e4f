// Files of these tests.
use std::fs::File;
use std::rt::Files;
use std::{env, fs, io, process};

/// A path in the folder of temporary files, which no other process has.
pub fn path_of(rt: &HostRuntime, name: &str) -> io::Result<String> {
    let folder = env::temp_dir(rt)?;
    let folder = folder.as_path().as_str();
    let number = process::id(rt.process());
    Ok(format!(in rt.alloc(); "{folder}/bozintar-{number}-{name}")?)
}

pub fn remove<R: Files<File = File>>(rt: &R, path: &str) {
    let _ = fs::remove_file(rt, path);
}
