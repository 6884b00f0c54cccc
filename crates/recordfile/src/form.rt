// The form of a whole record file, with its page file.
ghost use Rattle.std.specs.Prelude.{◌≡◌, cond};
ghost use Rattle.outcome.specs.Numbers.{number_of};
ghost use Rattle.recordfile.specs.Form.{malformed, registers_need, runs_need, judged, capped, form_of, in_form, register_records};
ghost use Rattle.recordfile.specs.Reader.{left};

use super::reader::Reader;
use super::{
    LEAST_RECORDS, MOST_RECORDS, RECORD_BYTES, REGISTER_RECORDS, REGISTERS_A_RECORD, Record,
};
use bits::RISCV_PAGESIZE;
use outcome::Refusal;

// What a record file needs beside it: a page file of so many pages; one of more than 2^64-1; or it is not in the form.
#[derive(Clone, Copy)]
pub enum Form {
    Needs(u64),
    Beyond,
    Malformed,
}

// Whether the register records stand next, in order.
fn registers_stand(records: &mut Reader) -> bool
    ensures { registers_need 0 register_records (left records.old) ≡ cond result (runs_need (left records.new)) malformed }
{
    for i in 0..REGISTER_RECORDS {
        let Some(entry) = records.next() else {
            return false;
        };
        let Record::Registers { first, .. } = entry else {
            return false;
        };
        if first != i as u64 * REGISTERS_A_RECORD {
            return false;
        }
    }
    true
}

// The pages that the runs need which are left: source runs, then dirty runs.
fn runs_need(records: Reader) -> Result<Option<u64>, Refusal>
    ensures { result ≡ capped (runs_need (left records.entry)) }
{
    let mut dirty = false;
    let mut sum = Some(0u64);
    for entry in records {
        match entry {
            Record::Source { .. } => {
                if dirty {
                    return Err(Refusal::BadRecordFile);
                }
            }
            Record::Dirty { pages, place, .. } => {
                let Some(before) = sum else {
                    return Err(Refusal::BadRecordFile);
                };
                if place != before {
                    return Err(Refusal::BadRecordFile);
                }
                dirty = true;
                sum = before.checked_add(pages);
            }
            _ => return Err(Refusal::BadRecordFile),
        }
    }
    Ok(sum)
}

// The pages of the page file that a record file needs beside it; where they pass 2^64-1, `None`.
pub fn needed_pages(file: &[u8]) -> Result<Option<u64>, Refusal>
    ensures { result ≡ capped (judged file.now) }
{
    if file.len() % RECORD_BYTES != 0 {
        return Err(Refusal::BadRecordFile);
    }
    let count = file.len() / RECORD_BYTES;
    if count < LEAST_RECORDS {
        return Err(Refusal::BadRecordFile);
    }
    if count > MOST_RECORDS {
        return Err(Refusal::BadRecordFile);
    }
    let mut records = Reader::new(file);
    let Some(entry) = records.next() else {
        return Err(Refusal::BadRecordFile);
    };
    let Record::State { .. } = entry else {
        return Err(Refusal::BadRecordFile);
    };
    if registers_stand(&mut records) {
        runs_need(records)
    } else {
        Err(Refusal::BadRecordFile)
    }
}

// What a record file needs beside it, or that it is not in the form.
pub fn judge(file: &[u8]) -> Form
    ensures { result ≡ form_of (capped (judged file.now)) }
{
    match needed_pages(file) {
        Ok(Some(pages)) => Form::Needs(pages),
        Ok(None) => Form::Beyond,
        Err(_) => Form::Malformed,
    }
}

// Whether a record file is in the form, beside a page file of so many bytes.
pub fn in_form(file: &[u8], pages: usize) -> Result<(), Refusal>
    ensures { number_of result ≡ in_form file.now pages }
{
    let needed = needed_pages(file)?;
    if pages % RISCV_PAGESIZE != 0 {
        return Err(Refusal::BadRecordFile);
    }
    if needed == Some((pages / RISCV_PAGESIZE) as u64) {
        Ok(())
    } else {
        Err(Refusal::BadRecordFile)
    }
}
