// The work of the bench program (document 01, "The bench program"): one job, its image and its spans,
// exported as Intel HEX.
#![tactic(auto)]

ghost use Rattle.std.specs.Prelude.{◌≡◌, true, false, ◌+◌, ◌*◌, ◌/◌, ◌≤◌, ◌<◌, length, take, drop, MatchOption};
ghost use Rattle.output.specs.Writes.{Writes};
ghost use Rattle.outcome.specs.Outcome.{refused, Exports};
ghost use Rattle.intelhex.specs.Hex.{hex_outcome};
ghost use Rattle.job.specs.Job.{word, column, bad_job, job_outcome, printed, bit_length, image_of, span_count, table_at, address_unit};

use bitvec::{Image, parts};
use intelhex::format_intelhex;
use numbers::{Letters, Radix, put_number};
use outcome::{Answer, Export};
use output::put_all;

// The longest job, in bytes: it has no more than 8,192 rows.
pub const MAX_BYTES: usize = 65536;

const MAX_ROWS: usize = 8192;

// What is refused where the bytes are no job.
const NO_JOB: u32 = 9;

// The little-endian 32-bit number at a place.
fn read_number(job: &[u8], at: usize) -> u32
    requires { at + 4 ≤ length job.now }
    ensures { result ≡ word job.now at }
{
    u32::from_le_bytes(*job[at..].first_chunk().unwrap())
}

// Reads one number of each row of a table into `to`, which has a place for each row. By places.
// Tried: a zip of `iter_mut` with the rows, through which no proof knows what is written.
fn read_column(rows: &[u8], at: usize, to: &mut [u32])
    requires { at + 8 * length to.old ≤ length rows.now + 4 }
    ensures { to.new ≡ column rows.now at (length to.old) }
{
    for (k, number) in to.iter_mut().enumerate() {
        *number = read_number(rows, at + 8 * k);
    }
}

// A job that can be read: its image, the rows of its span table, of 8 bytes each, and its address unit.
#[derive(Clone, Copy)]
struct Job<'a> {
    image: Image<'a>,
    rows: &'a [u8],
    unit: usize,
}

impl<'a> Job<'a> {
    // The job that bytes hold, unless they are refused with 9.
    #[tactic(auto, using(bitvec::proofs::Size::ceil_most), unfolding(crate::specs::Job::bad_job))]
    fn read(job: &'a [u8]) -> Option<Job<'a>>
        ensures { MatchOption result (bad_job job.now ≡ true) (λ j. (bad_job job.now ≡ false) × (j.image.bytes.now ≡ image_of job.now) × (j.image.len ≡ bit_length job.now) × (j.rows.now ≡ take (8 * span_count job.now) (drop (table_at job.now) job.now)) × (j.unit ≡ address_unit job.now)) }
    {
        let n = job.len();
        if MAX_BYTES < n || n < 20 {
            return None;
        }
        let len = read_number(job, 0) as usize;
        let from = read_number(job, 4) as usize;
        let count = read_number(job, 8) as usize;
        let table = read_number(job, 12) as usize;
        let unit = read_number(job, 16) as usize;
        let bytes = job.get(from..from + parts(len, 8))?;
        let rows = job.get(table..table + 8 * count)?;
        Some(Job {
            image: Image::new(bytes, len),
            rows,
            unit,
        })
    }

    // Exports a job. Two arrays, as `format_intelhex` takes the columns, and no heap.
    fn export(self, out: &mut [u8]) -> Export
        requires { length self.rows.now ≤ 65536 }
        ensures { let rows = self.entry.rows.now in let count = length rows / 8 in Exports (hex_outcome self.entry.image.bytes.now self.entry.image.len (column rows 0 count) (column rows 4 count) self.entry.unit (length out.old)) result out.old out.new }
    {
        let count = self.rows.len() / 8;
        let mut offsets = [0; MAX_ROWS];
        let mut sizes = [0; MAX_ROWS];
        read_column(self.rows, 0, &mut offsets[..count]);
        read_column(self.rows, 4, &mut sizes[..count]);
        format_intelhex(
            self.image,
            &offsets[..count],
            &sizes[..count],
            self.unit,
            out,
        )
    }
}

// Writes a refusal's number as it is printed.
fn put_refused(number: u32, out: &mut [u8]) -> usize
    requires { (number < 10) × (10 ≤ length out.old) }
    ensures printed { Writes (printed (refused number 0)) out.old 0 out.new result }
    ensures length { result ≡ 10 }
{
    let next = put_all(out, 0, b"refused ");
    let end = put_number(out, next, Letters::Lower, number as u64, Radix::DECIMAL);
    put_all(out, end, b"\n")
}

// Runs a job: what is printed stands at the front of `out`, and its length is answered.
#[tactic(auto, using(crate::proofs::Printed::number_small, crate::proofs::Printed::refused_kept))]
pub fn run_job(job: &[u8], out: &mut [u8; 65536]) -> usize
    ensures printed { Writes (printed (job_outcome job.now)) out.old 0 out.new result }
    ensures room { result ≤ 65536 }
{
    let Some(job) = Job::read(job) else {
        return put_refused(NO_JOB, out);
    };
    match job.export(out) {
        Ok(length) => length,
        Err(refusal) => put_refused(Answer::from(refusal).number, out),
    }
}
