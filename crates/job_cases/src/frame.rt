// A job's frame: its name, 7 numbers of 4 bytes, its label, its rankings, its kinds and its draws.
ghost use Rattle.std.specs.Prelude.{◌≡◌, ◌+◌, ◌≤◌, length};
ghost use Rattle.job_cases.specs.Frames.{FrameReads, numbers_at};

use testing::input;
use validity::Job;

// Where the pieces of a frame end.
#[derive(Clone, Copy)]
pub struct Ends {
    pub name: usize,
    pub label: usize,
    pub rankings: usize,
    pub kinds: usize,
    pub draws: usize,
}

// The numbers of a frame: those of a job, and the length of its output.
#[derive(Clone, Copy)]
pub struct Numbers {
    pub job: Job,
    pub length: usize,
}

// The numbers of the frame whose name ends at a place.
pub fn numbers_at(s: &[u8], at: usize) -> Numbers
    requires { at + 28 ≤ length s.now }
    ensures { result ≡ numbers_at s.now at }
{
    let job = Job {
        n: fields::number4(s, at) as usize,
        k: fields::number4(s, at + 4) as usize,
        p: fields::number4(s, at + 8),
        q: fields::number4(s, at + 12),
        g0: fields::as_element(s, at + 16),
        counter: (fields::number4(s, at + 20) % 256) as u8,
    };
    let length = fields::number4(s, at + 24) as usize;
    Numbers { job, length }
}

// The frame at a place; none where a piece is cut off.
#[tactic(auto, unfolding(crate::specs::Frames::FrameReads))]
pub fn read(s: &[u8], at: usize) -> Option<Ends>
    ensures { FrameReads s.now at result }
{
    let (_, name) = input::piece_at(s, at)?;
    if s.len() - name < 28 {
        return None;
    }
    let (_, label) = input::piece_at(s, name + 28)?;
    let (_, rankings) = input::piece_at(s, label)?;
    let (_, kinds) = input::piece_at(s, rankings)?;
    let (_, draws) = input::piece_at(s, kinds)?;
    Some(Ends {
        name,
        label,
        rankings,
        kinds,
        draws,
    })
}
