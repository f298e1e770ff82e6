// A queue by value takes two FIFO threads: the form that document 01 names, run here.
use codec::Row;
use policy_words::ROW_WORDS;
use ready_index::{MAX_PATH, PATH_STEP_WORDS, Path};
use run_queue::CpuRunQueue;
use thread::{CpuIndex, ThreadId};

fn enqueued(queue: CpuRunQueue, t: &mut [Row], path: &mut Path, id: u64) -> CpuRunQueue {
    let step = queue.enqueue(t, path, ThreadId(id), CpuIndex(0));
    step.queue
}

// How many it then has. A row of zeros is a FIFO thread.
pub fn length() -> u64 {
    let mut t = [[0u64; ROW_WORDS]; 2];
    let mut path = [[0u64; PATH_STEP_WORDS]; MAX_PATH];
    let first = enqueued(CpuRunQueue::new(), &mut t, &mut path, 0);
    let both = enqueued(first, &mut t, &mut path, 1);
    both.real_time_len()
}
