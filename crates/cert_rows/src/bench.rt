use crate::answer::Answer;
use crate::digits::{number_of, push_hex, push_number, split_word};
use crate::judging::judged_words;
use crate::pieces::{check_in_pieces, check_open, check_whole, part_word, verdict_words};
use anyhow::Result;
use cert_types::{CertFault, Checked, put_label};
use close_rules::Label;
use lat_shelf::{FileShelf, read_whole};
use std::alloc::Global;
use std::fs::Files;

// How many bytes a file may have that lies beside the program.
const DATA_LIMIT: u32 = 67_108_864;

// One-byte ids, as many as a contest may have targets.
const IDS: &str = "0123456789ABCDEFGHIJKLMNOPQRSTUVWXYZabcdefghijklmnopqrstuvwxyz-_";

/// The bytes at hand.
#[derive(Drop)]
pub struct Bench {
    alloc: Global,
    bytes: Vec<u8>,
}

impl Bench {
    /// No bytes.
    pub fn new(alloc: Global) -> Bench {
        Bench {
            alloc,
            bytes: Vec::new(alloc),
        }
    }

    // Adds the spellings of so many ids of one byte.
    fn ids(&mut self, count: u16) -> Result<()> {
        for id in IDS.as_bytes().iter().take(count as usize) {
            self.bytes.push(1)?;
            self.bytes.push(*id)?;
        }
        Ok(())
    }

    // Adds the numbers below `count`.
    fn numbers(&mut self, count: u16) -> Result<()> {
        for number in 0..count {
            push_number(&mut self.bytes, number)?;
        }
        Ok(())
    }

    // Adds bytes so many times.
    fn repeat(&mut self, count: u16, digits: &str) -> Result<()> {
        for _ in 0..count {
            push_hex(self.alloc, &mut self.bytes, digits)?;
        }
        Ok(())
    }

    // Adds the bytes of a file that lies beside the program.
    fn load<R: Files>(&mut self, rt: &R, name: &str) -> Result<()> {
        let mut files = FileShelf::new(rt);
        let bytes = read_whole(self.alloc, &mut files, name, DATA_LIMIT)?;
        self.bytes.extend_from_slice(&bytes)?;
        Ok(())
    }

    // Adds to the bytes at hand.
    fn add<R: Files>(&mut self, rt: &R, head: &str, rest: &str) -> Result<()> {
        match head {
            "hex" => push_hex(self.alloc, &mut self.bytes, rest)?,
            "ids" => self.ids(number_of(rest))?,
            "numbers" => self.numbers(number_of(rest))?,
            "load" => self.load(rt, rest)?,
            _ => {
                let (count, digits) = split_word(rest);
                self.repeat(number_of(count), digits)?;
            }
        }
        Ok(())
    }

    // Prints what reading bytes as each kind of file came to.
    fn show<R: Print>(&self, rt: &R, bytes: &[u8]) -> Result<()> {
        let certificate = Answer::as_certificate(self.alloc, bytes);
        let open = Answer::as_open(self.alloc, bytes);
        let evade = Answer::as_evade(self.alloc, bytes);
        print!(rt;
            "{} bytes: certificate {}, ",
            bytes.len(),
            certificate.word()
        )?;
        println!(rt; "open file {}, evade file {}", open.word(), evade.word())?;
        Ok(())
    }

    // Shows the bytes at hand with `count` of them, from place `at` on, replaced by others.
    fn swap<R: Print>(&self, rt: &R, at: u16, count: u16, digits: &str) -> Result<()> {
        let at = (at as usize).min(self.bytes.len());
        let (front, rest) = self.bytes.split_at(at);
        let count = (count as usize).min(rest.len());
        let (_, back) = rest.split_at(count);
        let mut changed = Vec::from_slice(self.alloc, front)?;
        push_hex(self.alloc, &mut changed, digits)?;
        changed.extend_from_slice(back)?;
        self.show(rt, &changed)
    }

    // Prints how many proper prefixes of the bytes at hand are of no kind.
    fn prefixes<R: Print>(&self, rt: &R) -> Result<()> {
        let mut refused: u64 = 0;
        for end in 0..self.bytes.len() {
            let front = &self.bytes[..end];
            let certificate = Answer::as_certificate(self.alloc, front);
            let open = Answer::as_open(self.alloc, front);
            let evade = Answer::as_evade(self.alloc, front);
            if [certificate, open, evade] == [Answer::Refused; 3] {
                refused = refused.saturating_add(1);
            }
        }
        println!(rt; "{refused} proper prefixes are no file")?;
        Ok(())
    }

    // Prints the spelling of Mark(j, t).
    fn mark<R: Print>(&self, rt: &R, j: u16, t: u16) -> Result<()> {
        let mut spelling = Vec::new(self.alloc);
        put_label(self.alloc, &mut spelling, &Label::Mark(j, t))?;
        for byte in &spelling {
            print!(rt; "{byte:02x}")?;
        }
        println!(rt; "")?;
        Ok(())
    }

    // Prints an answer of the check of the bytes at hand.
    fn print_answer<R: Print>(&self, rt: &R, checked: Result<Checked, CertFault>) -> Result<()> {
        match checked {
            Ok(Checked::Yes(verdict)) => {
                let (words, ballots) = verdict_words(verdict);
                print!(rt; "{words} {ballots}")?;
            }
            Ok(Checked::No(part, node)) => print!(rt; "false, {} {node}", part_word(part))?,
            Err(CertFault::NotACertificate) => print!(rt; "no certificate")?,
            Err(CertFault::Memory) => print!(rt; "memory")?,
        }
        Ok(())
    }

    // Prints the answer of the check of the bytes at hand as a whole.
    fn whole<R: Print>(&self, rt: &R) -> Result<()> {
        print!(rt; "{} bytes whole: ", self.bytes.len())?;
        self.print_answer(rt, check_whole(self.alloc, &self.bytes))?;
        println!(rt; "")?;
        Ok(())
    }

    // Prints the answer of the check of the bytes at hand as an open file.
    fn open<R: Print>(&self, rt: &R) -> Result<()> {
        print!(rt; "{} bytes as an open file: ", self.bytes.len())?;
        match check_open(self.alloc, &self.bytes) {
            Ok(None) => println!(rt; "holds")?,
            Ok(Some((part, node))) => println!(rt; "false, {} {node}", part_word(part))?,
            Err(CertFault::NotACertificate) => println!(rt; "no open file")?,
            Err(CertFault::Memory) => println!(rt; "memory")?,
        }
        Ok(())
    }

    // Prints what reported totals come to under the bytes at hand.
    fn judge<R: Print>(&self, rt: &R, totals: &str) -> Result<()> {
        let judged = judged_words(self.alloc, &self.bytes, totals)?;
        println!(rt; "{} bytes judge {totals}: {judged}", self.bytes.len())?;
        Ok(())
    }

    // Prints the answer of the check of the bytes at hand in pieces of so many.
    fn pieces<R: Print>(&self, rt: &R, size: u16) -> Result<()> {
        let streamed = check_in_pieces(self.alloc, &self.bytes, size);
        print!(rt; "{} bytes in pieces of {size}: ", self.bytes.len())?;
        self.print_answer(rt, streamed.checked)?;
        print!(rt;
            "{}",
            if streamed.early {
                ", before the end"
            } else {
                ""
            }
        )?;
        println!(rt;
            "{}",
            if streamed.stays {
                ""
            } else {
                ", and then otherwise"
            }
        )?;
        Ok(())
    }

    // Prints for how many changes of one of the bytes at hand the whole check and that of single
    // bytes give the same answer.
    fn changes<R: Print>(&self, rt: &R) -> Result<()> {
        let mut changed = Vec::from_slice(self.alloc, &self.bytes)?;
        let mut alike: u64 = 0;
        for i in 0..changed.len() {
            let kept = changed[i];
            for value in 0..=255 {
                changed[i] = value;
                let whole = check_whole(self.alloc, &changed);
                let streamed = check_in_pieces(self.alloc, &changed, 1);
                if value != kept && streamed.stays && whole == streamed.checked {
                    alike = alike.saturating_add(1);
                }
            }
            changed[i] = kept;
        }
        println!(rt; "{alike} changes of a byte are answered alike")?;
        Ok(())
    }

    /// Does what a line says (docs/ADDING.md tells the lines). A line of another kind is printed.
    pub fn step<R: Print + Files>(&mut self, rt: &R, line: &str) -> Result<()> {
        let (head, rest) = split_word(line);
        match head {
            "new" => self.bytes.clear(),
            "hex" | "ids" | "numbers" | "repeat" | "load" => self.add(rt, head, rest)?,
            "read" => self.show(rt, &self.bytes)?,
            "swap" => {
                let (at, rest) = split_word(rest);
                let (count, digits) = split_word(rest);
                self.swap(rt, number_of(at), number_of(count), digits)?;
            }
            "prefixes" => self.prefixes(rt)?,
            "whole" => self.whole(rt)?,
            "open" => self.open(rt)?,
            "judge" => self.judge(rt, rest)?,
            "pieces" => self.pieces(rt, number_of(rest))?,
            "changes" => self.changes(rt)?,
            "mark" => {
                let (j, t) = split_word(rest);
                self.mark(rt, number_of(j), number_of(t))?;
            }
            _ => println!(rt; "{line}")?,
        }
        Ok(())
    }
}
