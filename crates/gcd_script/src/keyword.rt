// The first words of lines.
ghost use Rattle.std.specs.Prelude.{◌≡◌, Some, IfSome, map, true, codes};
ghost use Rattle.gcd_script.specs.Keywords.{pick, declarations, acts, object_acts, keyword_of};

/// What kind of line a first word begins.
#[derive(Clone, Copy)]
pub enum Keyword {
    /// `file`: a file that is loaded whole.
    File,
    /// `queue` (dispatch_queue_create(3)).
    Queue,
    /// `group` (dispatch_group_create(3)).
    Group,
    /// `semaphore` (dispatch_semaphore_create(3)).
    Semaphore,
    /// `source` (dispatch_source_create(3)).
    Source,
    /// `cancelled`: the cancellation block of a source (dispatch_source_set_cancel_handler(3)).
    Cancelled,
    /// `until`: the last due time of timers and limit of waits.
    Until,
    /// `block`: a block, whose acts follow.
    Block,
    /// `handler`: the acts of a source's handler follow (dispatch_source_set_event_handler(3)).
    Handler,
    /// `main`: the acts of `main` follow.
    Main,
    /// An act that submits a block to a queue.
    Submit(Submission),
    /// An act that submits a block to a queue for a group.
    GroupSubmit(GroupSubmission),
    /// An act on one object.
    OneObject(ObjectAct),
    /// A wait for so many milliseconds.
    Limited(LimitedWait),
    /// `target` (dispatch_set_target_queue(3)).
    Target,
    /// `merge` (dispatch_source_merge_data(3)).
    Merge,
    /// `intake`: blocks for closures from outside.
    Intake,
    /// `strip`: blocks that count one part of a file after the other (dispatch_apply(3)).
    Strip,
    /// `apply` (dispatch_apply(3)).
    Apply,
    /// An act on one block.
    OneBlock(BlockAct),
    /// `notify_block` (dispatch_block_notify(3)).
    NotifyBlock,
}

/// What an act does with one block.
#[derive(Clone, Copy)]
pub enum BlockAct {
    /// `cancel_block` (dispatch_block_cancel(3)).
    CancelBlock,
    /// `wait_block` (dispatch_block_wait(3)).
    WaitBlock,
}

/// How an act submits a block to a queue.
#[derive(Clone, Copy)]
pub enum Submission {
    /// `async` (dispatch_async(3)).
    Async,
    /// `barrier` (dispatch_barrier_async(3)).
    Barrier,
    /// `sync` (dispatch_sync(3)).
    Sync,
    /// `barrier_sync` (dispatch_barrier_sync(3)).
    BarrierSync,
}

/// How an act submits a block to a queue for a group.
#[derive(Clone, Copy)]
pub enum GroupSubmission {
    /// `group_async` (dispatch_group_async(3)).
    GroupAsync,
    /// `notify` (dispatch_group_notify(3)).
    Notify,
}

/// What a wait with a limit waits for.
#[derive(Clone, Copy)]
pub enum LimitedWait {
    /// `wait_for` (dispatch_semaphore_wait(3)).
    WaitFor,
    /// `group_wait_for` (dispatch_group_wait(3)).
    GroupWaitFor,
}

/// What an act does with one object.
#[derive(Clone, Copy)]
pub enum ObjectAct {
    /// `enter` (dispatch_group_enter(3)).
    Enter,
    /// `leave` (dispatch_group_leave(3)).
    Leave,
    /// `group_wait` (dispatch_group_wait(3)).
    GroupWait,
    /// `signal` (dispatch_semaphore_signal(3)).
    Signal,
    /// `wait` (dispatch_semaphore_wait(3)).
    Wait,
    /// `suspend` (dispatch_suspend(3)).
    Suspend,
    /// `resume` (dispatch_resume(3)).
    Resume,
    /// `activate` (dispatch_activate(3)).
    Activate,
    /// `cancel` (dispatch_source_cancel(3)).
    Cancel,
    /// `retain` (dispatch_retain(3)).
    Retain,
    /// `release` (dispatch_release(3)).
    Release,
}

impl Keyword {
    /// What kind of line the word begins; None exactly where no form begins with it.
    pub fn of_word(word: &str) -> Option<Keyword>
        ensures { result ≡ keyword_of word.now }
    {
        if let Some(keyword) = common(word) {
            return Some(keyword);
        }
        if let Some(keyword) = declaration(word) {
            return Some(keyword);
        }
        if let Some(keyword) = act(word) {
            return Some(keyword);
        }
        match object_act(word) {
            Some(what) => Some(Keyword::OneObject(what)),
            None => None,
        }
    }
}

fn is_async(word: &str) -> bool
    ensures { result ≡ true → word.now ≡ codes "async" }
{
    matches!(word.as_bytes(), [b'a', b's', b'y', b'n', b'c'])
}

fn is_block(word: &str) -> bool
    ensures { result ≡ true → word.now ≡ codes "block" }
{
    matches!(word.as_bytes(), [b'b', b'l', b'o', b'c', b'k'])
}

fn is_queue(word: &str) -> bool
    ensures { result ≡ true → word.now ≡ codes "queue" }
{
    matches!(word.as_bytes(), [b'q', b'u', b'e', b'u', b'e'])
}

fn is_sync(word: &str) -> bool
    ensures { result ≡ true → word.now ≡ codes "sync" }
{
    matches!(word.as_bytes(), [b's', b'y', b'n', b'c'])
}

// Finds the keyword of a word that begins most lines of a long script, by its bytes. It returns None for each other word, a keyword too.
fn common(word: &str) -> Option<Keyword>
    ensures { IfSome result (λ keyword. keyword_of word.now ≡ Some keyword) }
{
    if is_async(word) {
        Some(Keyword::Submit(Submission::Async))
    } else if is_block(word) {
        Some(Keyword::Block)
    } else if is_queue(word) {
        Some(Keyword::Queue)
    } else if is_sync(word) {
        Some(Keyword::Submit(Submission::Sync))
    } else {
        None
    }
}

// What the table has beside the word; None where no row is of the word.
fn pick<T: Copy>(rows: &[(&str, T)], word: &str) -> Option<T>
    ensures { result ≡ pick (map (λ row. (row.0.now, row.1)) rows.now) word.now }
{
    for (spelled, value) in rows {
        if word == *spelled {
            return Some(*value);
        }
    }
    None
}

// The first words of declarations.
static DECLARATIONS: [(&str, Keyword); 12] = [
    ("file", Keyword::File),
    ("queue", Keyword::Queue),
    ("group", Keyword::Group),
    ("semaphore", Keyword::Semaphore),
    ("source", Keyword::Source),
    ("cancelled", Keyword::Cancelled),
    ("until", Keyword::Until),
    ("block", Keyword::Block),
    ("handler", Keyword::Handler),
    ("main", Keyword::Main),
    ("intake", Keyword::Intake),
    ("strip", Keyword::Strip),
];

// What kind of declaration the word begins; None exactly where it begins none.
fn declaration(word: &str) -> Option<Keyword>
    ensures { result ≡ pick declarations word.now }
{
    pick(&DECLARATIONS, word)
}

// The first words of acts on more than one thing.
static ACTS: [(&str, Keyword); 14] = [
    ("async", Keyword::Submit(Submission::Async)),
    ("barrier", Keyword::Submit(Submission::Barrier)),
    ("sync", Keyword::Submit(Submission::Sync)),
    ("barrier_sync", Keyword::Submit(Submission::BarrierSync)),
    (
        "group_async",
        Keyword::GroupSubmit(GroupSubmission::GroupAsync),
    ),
    ("notify", Keyword::GroupSubmit(GroupSubmission::Notify)),
    ("wait_for", Keyword::Limited(LimitedWait::WaitFor)),
    (
        "group_wait_for",
        Keyword::Limited(LimitedWait::GroupWaitFor),
    ),
    ("target", Keyword::Target),
    ("merge", Keyword::Merge),
    ("apply", Keyword::Apply),
    ("cancel_block", Keyword::OneBlock(BlockAct::CancelBlock)),
    ("wait_block", Keyword::OneBlock(BlockAct::WaitBlock)),
    ("notify_block", Keyword::NotifyBlock),
];

// The same of acts on more than one thing.
fn act(word: &str) -> Option<Keyword>
    ensures { result ≡ pick acts word.now }
{
    pick(&ACTS, word)
}

// The first words of acts on one object.
static OBJECT_ACTS: [(&str, ObjectAct); 11] = [
    ("enter", ObjectAct::Enter),
    ("leave", ObjectAct::Leave),
    ("group_wait", ObjectAct::GroupWait),
    ("signal", ObjectAct::Signal),
    ("wait", ObjectAct::Wait),
    ("suspend", ObjectAct::Suspend),
    ("resume", ObjectAct::Resume),
    ("activate", ObjectAct::Activate),
    ("cancel", ObjectAct::Cancel),
    ("retain", ObjectAct::Retain),
    ("release", ObjectAct::Release),
];

// The same of acts on one object.
fn object_act(word: &str) -> Option<ObjectAct>
    ensures { result ≡ pick object_acts word.now }
{
    pick(&OBJECT_ACTS, word)
}
