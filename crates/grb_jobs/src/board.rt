//! A board of products that passes make together. Whoever needs a product looks there for one of the same matrices; nothing else ties
//! them.
ghost use Rattle.std.specs.Prelude.{◌≡◌, true, IfOk, IfSome};
ghost use Rattle.std.specs.Arc.{arc_value};
ghost use Rattle.std.specs.Option.{option_map};
ghost use Rattle.grb_mxm.specs.Rows.{selected_product};
ghost use Rattle.grb_jobs.specs.Blocks.{IsReady, whole_of};

use crate::cells::is_readable;
use crate::cuts::cuts_of;
use crate::inputs::Inputs;
use crate::job::Job;
use counted_slot::{Counted, FREE, Fits, ONE_READER, PRESENT, TAKEN};
use grb_core::Semiring;
use grb_sparse::SparseMatrix;
use std::alloc::{AllocError, Global};
use std::sync::Arc;
use std::sync::atomic::{AtomicU64, Ordering};

/// A product that others may help with.
#[derive(Drop)]
pub(crate) struct Posted {
    job: Arc<Job>,
}

/// Nothing is asked of a job beyond what its type says.
impl Fits for Posted {
    type Tag = ();

    ghost fits = { λ _ _. Unit {0} };
}

type Place = Counted<Option<Posted>>;

/// Places for products that passes make together: four at most.
///
/// Source: own.
#[derive(Drop)]
pub struct Board {
    alloc: Global,
    places: [Place; 4],
    /// How many blocks were made.
    made: AtomicU64,
}

/// One more share of what is posted.
fn share_of(posted: &Option<Posted>) -> Option<Arc<Job>> {
    match posted {
        Some(posted) => Arc::try_clone(&posted.job).ok(),
        None => None,
    }
}

/// The job at a place, if there is one that may be read, and it was not given up. One that is over is taken away by whoever looks at it last:
/// so none stays after it is over and was looked at.
fn look(place: &Place) -> Option<Arc<Job>> {
    let word = place.load();
    if !is_readable(word) {
        return None;
    }
    let (found, claim) = place.turn(word, word + ONE_READER);
    if found != word {
        claim.done();
        return None;
    }
    let share = share_of(claim.get());
    let _ = claim.leave();
    let job = share?;
    if job.is_over() {
        clear(place);
    }
    if job.is_given_up() { None } else { Some(job) }
}

/// Puts a job at a place that has none, and says whether it did.
fn post(place: &Place, job: Arc<Job>) -> bool {
    let (found, claim) = place.turn(FREE, TAKEN);
    if found != FREE {
        claim.done();
        return false;
    }
    let _ = claim.put(Some(Posted { job }), PRESENT);
    true
}

/// Takes the job away from a place that no one reads at the moment. One that is not over came there since, and is put back.
fn clear(place: &Place) {
    let (found, claim) = place.turn(PRESENT, TAKEN);
    if found != PRESENT {
        claim.done();
        return;
    }
    if let Some(Posted { job }) = claim.put(None, FREE) {
        if !job.is_over() {
            let _ = post(place, job);
        }
    }
}

impl Board {
    /// No product is posted. Takes no memory.
    ///
    /// Source: own.
    pub fn open(alloc: Global) -> Board {
        let places = [
            Counted::new(None, &()),
            Counted::new(None, &()),
            Counted::new(None, &()),
            Counted::new(None, &()),
        ];
        Board {
            alloc,
            places,
            made: AtomicU64::new(0),
        }
    }

    /// A job of these matrices that is posted at one of the first places, so many.
    fn find(&self, inputs: &Inputs, count: usize) -> Option<Arc<Job>>
        ensures { IfSome result (λ job. (arc_value job).inputs ≡ inputs.now) }
    {
        'places: for at in 0..self.places.len() {
            if at >= count {
                return None;
            }
            if let Some(job) = look(&self.places[at]) {
                if job.inputs.is_same(inputs) {
                    return Some(job);
                }
            }
        }
        None
    }

    /// Posts a job where a place is free, or has one that is over, and answers which.
    fn post(&self, job: &Arc<Job>) -> Option<usize> {
        'places: for at in 0..self.places.len() {
            let _ = look(&self.places[at]);
            let Ok(share) = Arc::try_clone(job) else {
                return None;
            };
            if post(&self.places[at], share) {
                return Some(at);
            }
        }
        None
    }

    /// Takes away whatever is over.
    fn clear(&self) {
        for at in 0..self.places.len() {
            let _ = look(&self.places[at]);
        }
    }

    /// Makes the product of a job with those who come to it. It is over when the last of them has the product. For `None` and `AllocError`
    /// see `Job::all`.
    fn read(&self, job: &Job) -> Result<Option<SparseMatrix>, AllocError>
        ensures matrix { IfOk result (λ found. IfSome found (λ made. made.matrix ≡ whole_of job.now.inputs)) }
        ensures assembled { IfOk result (λ found. IfSome found (λ made. made.assembled ≡ true)) }
    {
        let made = job.all(&self.made);
        self.clear();
        made
    }

    /// The same of a job that is not posted yet. Where another posted one of the same matrices before it at the same time, that is the one
    /// that is made.
    fn make(&self, job: &Arc<Job>) -> Result<Option<SparseMatrix>, AllocError>
        ensures matrix { IfOk result (λ found. IfSome found (λ made. made.matrix ≡ whole_of job.now.value.inputs)) }
        ensures assembled { IfOk result (λ found. IfSome found (λ made. made.assembled ≡ true)) }
    {
        let posted = self.post(job);
        if let Some(before) = self.find(&job.inputs, posted.unwrap_or(0)) {
            job.give_up();
            self.clear();
            return self.read(&before);
        }
        self.read(job)
    }

    /// The product of two matrices at the cells that a mask selects, as `grb_mxm::product` makes it: by a job of others on the same matrices,
    /// where one is posted; else by one that is posted here. `None` where it may be made alone: it is not dear, or memory is refused for a
    /// job, or besides blocks that others made. `AllocError` where memory is refused for the product itself; then nothing is made.
    pub(crate) fn product(
        &self,
        semiring: Semiring,
        structure: bool,
        mask: Option<&SparseMatrix>,
        first: &SparseMatrix,
        second: &SparseMatrix,
    ) -> Result<Option<SparseMatrix>, AllocError>
        requires { IsReady semiring (option_map (λ m. m.now) mask) first.now second.now }
        ensures matrix { IfOk result (λ found. IfSome found (λ made. made.matrix ≡ record { domain = first.now.matrix.domain; nrows = first.now.matrix.nrows; ncols = second.now.matrix.ncols; entries = selected_product semiring structure (option_map (λ m. m.now.matrix.entries) mask.entry) first.now.matrix.entries second.now.matrix.entries })) }
        ensures assembled { IfOk result (λ found. IfSome found (λ made. made.assembled ≡ true)) }
    {
        let Some(cuts) = cuts_of(self.alloc, mask, first, second) else {
            return Ok(None);
        };
        let Ok(inputs) = Inputs::of(semiring, structure, mask, first, second) else {
            return Ok(None);
        };
        if let Some(job) = self.find(&inputs, self.places.len()) {
            return self.read(&job);
        }
        let Ok(job) = Job::open(self.alloc, inputs, cuts) else {
            return Ok(None);
        };
        let Ok(job) = Arc::new(self.alloc, job) else {
            return Ok(None);
        };
        self.make(&job)
    }

    /// Makes blocks of whatever is posted, and answers how many. It waits for no one, and leaves a job for which memory is refused.
    ///
    /// Source: own.
    pub fn help(&self) -> u32 {
        let mut count: u32 = 0;
        for at in 0..self.places.len() {
            if let Some(job) = look(&self.places[at]) {
                count = count.saturating_add(job.help(&self.made));
            }
        }
        count
    }

    /// How many blocks were made on this board, by those who help and those who need a product; one that two made counts twice.
    ///
    /// Source: own.
    pub fn made(&self) -> u64 {
        self.made.load(Ordering::SeqCst)
    }
}
