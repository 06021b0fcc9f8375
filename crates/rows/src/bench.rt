use crate::printing::{print_bytes, push_hex};
use anyhow::Result;
use lat_shelf::{FileShelf, Kind, MemoryShelf, MemorySink, Shelf, read_whole};
use lat_top::{Status, run};
use std::alloc::{AllocError, Global};
use std::fs::Files;

// How many bytes a file may have that lies beside the program.
const DATA_LIMIT: u32 = 67_108_864;

/// Files in memory, the output of the call at hand, and the file that is being written.
#[derive(Drop)]
pub struct Bench {
    alloc: Global,
    shelf: MemoryShelf,
    out: MemorySink,
    file: Vec<u8>,
}

// The words of a line, where '' stands for one without a byte.
fn words_of(alloc: Global, line: &str) -> Result<Vec<String>, AllocError> {
    let mut words = Vec::new(alloc);
    for word in line.split_whitespace() {
        words.push(String::from_str(alloc, if word == "''" { "" } else { word })?)?;
    }
    Ok(words)
}

impl Bench {
    /// No files, and no call that fails.
    pub fn new(alloc: Global) -> Bench {
        Bench {
            alloc,
            shelf: MemoryShelf::new(alloc),
            out: MemorySink::new(alloc),
            file: Vec::new(alloc),
        }
    }

    // Runs a command over the files in memory.
    fn run<R: Print>(&mut self, rt: &R, line: &str) -> Result<()> {
        let words = words_of(self.alloc, line)?;
        let status = run(self.alloc, &words, &mut self.shelf, &mut self.out);
        self.report(rt, line, status)
    }

    // Runs a command over the system's own files.
    fn run_on_disk<R: Print + Files>(&mut self, rt: &R, line: &str) -> Result<()> {
        let words = words_of(self.alloc, line)?;
        let mut files = FileShelf::new(rt);
        let status = run(self.alloc, &words, &mut files, &mut self.out);
        self.report(rt, line, status)
    }

    // Prints a command's words, the number and the line of its status, and what it gave.
    fn report<R: Print>(&mut self, rt: &R, line: &str, status: Status) -> Result<()> {
        let text = status.line(self.alloc)?;
        println!(rt; "$ {line}")?;
        print!(rt; "{}", status.code())?;
        print_bytes(rt, "", &text)?;
        print_bytes(rt, ">", self.out.bytes())?;
        self.out = MemorySink::new(self.alloc);
        Ok(())
    }

    // Prints a file.
    fn show<R: Print>(&self, rt: &R, name: &str) -> Result<()> {
        match self.shelf.file(name) {
            None => println!(rt; "{name}: none")?,
            Some(bytes) => {
                println!(rt; "{name}: {} bytes", bytes.len())?;
                print_bytes(rt, "|", bytes)?;
            }
        }
        Ok(())
    }

    // Prints how many bytes a file has.
    fn size<R: Print>(&self, rt: &R, name: &str) -> Result<()> {
        match self.shelf.file(name) {
            None => println!(rt; "{name}: none")?,
            Some(bytes) => println!(rt; "{name}: {} bytes", bytes.len())?,
        }
        Ok(())
    }

    // Prints the first bytes of a file.
    fn front<R: Print>(&self, rt: &R, name: &str, count: &str) -> Result<()> {
        let count = count.parse::<usize>().unwrap_or(0);
        match self.shelf.file(name) {
            None => println!(rt; "{name}: none")?,
            Some(bytes) => {
                println!(rt; "{name}: {count} bytes from the front")?;
                print_bytes(rt, "|", bytes.get(..count).unwrap_or(bytes))?;
            }
        }
        Ok(())
    }

    // Prints a line of a file, the first being line 1.
    fn line<R: Print>(&self, rt: &R, name: &str, number: &str) -> Result<()> {
        let number = number.parse::<usize>().unwrap_or(1);
        match self.shelf.file(name) {
            None => println!(rt; "{name}: none")?,
            Some(bytes) => {
                let text = str::from_utf8(bytes).unwrap_or("");
                let line = text.lines().nth(number.saturating_sub(1)).unwrap_or("");
                println!(rt; "{name}: line {number}")?;
                println!(rt; "| {line}")?;
            }
        }
        Ok(())
    }

    // Adds the bytes of a file that lies beside the program.
    fn load<R: Files>(&mut self, rt: &R, name: &str) -> Result<()> {
        let mut files = FileShelf::new(rt);
        let bytes = read_whole(self.alloc, &mut files, name, DATA_LIMIT)?;
        self.file.extend_from_slice(&bytes)?;
        Ok(())
    }

    // Puts the file that is being written among the system's own.
    fn keep<R: Print + Files>(&mut self, rt: &R, name: &str) -> Result<()> {
        let mut files = FileShelf::new(rt);
        if files.put(name, &self.file).is_err() {
            println!(rt; "{name}: not kept")?;
        }
        self.file.clear();
        Ok(())
    }

    // Lets call number n of a kind fail.
    fn fail(&mut self, kind: &str, number: &str) -> Result<()> {
        let n = number.parse::<u64>().unwrap_or(0);
        match kind {
            "open" => self.shelf.fail(Kind::Open, n)?,
            "take" => self.shelf.fail(Kind::Take, n)?,
            "put" => self.shelf.fail(Kind::Put, n)?,
            _ => self.out.fail(n)?,
        }
        Ok(())
    }

    // Adds bytes to the file that is being written.
    fn write<R: Files>(&mut self, rt: &R, head: &str, rest: &str) -> Result<()> {
        match head {
            "|" => {
                self.file.extend_from_slice(rest.as_bytes())?;
                self.file.push(b'\n')?;
            }
            "hex" => push_hex(&mut self.file, rest)?,
            "load" => self.load(rt, rest)?,
            _ => {
                for _ in 0..rest.parse::<u32>().unwrap_or(0) {
                    self.file.push(b' ')?;
                }
            }
        }
        Ok(())
    }

    /// Does what a line says (docs/ADDING.md tells the lines). A line of another kind is printed.
    pub fn step<R: Print + Files>(&mut self, rt: &R, line: &str) -> Result<()> {
        let (head, rest) = line.split_once(' ').unwrap_or((line, ""));
        match head {
            "new" => {
                self.shelf = MemoryShelf::new(self.alloc);
                self.out = MemorySink::new(self.alloc);
            }
            "|" | "hex" | "fill" | "load" => self.write(rt, head, rest)?,
            "file" => {
                self.shelf.add(rest, &self.file)?;
                self.file.clear();
            }
            "fail" => {
                let (kind, number) = rest.split_once(' ').unwrap_or((rest, "0"));
                self.fail(kind, number)?;
            }
            "run" => self.run(rt, rest)?,
            "keep" => self.keep(rt, rest)?,
            "disk" => self.run_on_disk(rt, rest)?,
            "show" => self.show(rt, rest)?,
            "size" => self.size(rt, rest)?,
            "front" => {
                let (name, count) = rest.split_once(' ').unwrap_or((rest, "0"));
                self.front(rt, name, count)?;
            }
            "line" => {
                let (name, number) = rest.split_once(' ').unwrap_or((rest, "1"));
                self.line(rt, name, number)?;
            }
            _ => println!(rt; "{line}")?,
        }
        Ok(())
    }
}
