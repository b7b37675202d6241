//! The script language: which texts are scripts, and the plan that a script declares (this project's own rules).
//!
//! | call | answer |
//! |---|---|
//! | `parse` | the plan that the script declares (`IsScriptOf`), which is valid (`IsPlan`); or the first line at fault with the lowest code that applies to it (`IsRefusal`: `fault_of`) and a cause of that code (`HasItsCause`); or `Memory` |
//! | `big_text` | the script of the large input with n blocks (`big_script`), which is a script; or out of memory |
//! | `Refusal::code`, `Cause::code` | the code of a refusal, and of a cause, from 1 to 9 |
//! | `Amount::least`, `Amount::most` | the range of a number |
//! | `laws` | the plan that a script declares is valid |
//!
//! The model is a text as a list of bytes, which `gcd_text` cuts into lines and words. `keyword_of` says what kind of line a
//! first word begins, and `line_by` what the words after it mean: a value (`Line`), or the refusal of the lowest code
//! (`Meant`). `judged` tests the whole line, `change` says what a right line adds to the draft, and `script_of` reads the
//! lines of a text one after the other. So a form of line is one row of a table of first words, one equation of a definition
//! of `Declarations` or `Acts`, and, where it adds something new, one equation of `change`.
//!
//! A line holds bytes from 32 to 126, comments too. One without words, or whose first word begins with `#`, is skipped, and
//! counts. A name is 1 to 32 small letters, digits and `_`, the first a letter; all names share one space, and a name is
//! declared above the line that uses it. `root` is a known queue, `main` is never known, and neither can be declared. A number
//! is written in decimal with no sign and no leading zero. PATH is 1 to 255 bytes.
//!
//! Every declaration closes the body that was open; the last three open one.
//!
//! | form | what it declares |
//! |---|---|
//! | `file F PATH` | F is loaded whole under PATH |
//! | `queue Q K`, `queue Q K inactive`, `queue Q K on T`, `queue Q K on T inactive` | K is `serial` or `concurrent`, T a queue, `root` when absent (dispatch_queue_create(3)) |
//! | `group G` | (dispatch_group_create(3)) |
//! | `semaphore S N` | N from 0 to `MAX_VALUE` (dispatch_semaphore_create(3)) |
//! | `source S add on T`, `source S or on T`, `source S replace on T`, `source S timer START EVERY on T`, `source S read PATH on T` | T a queue, the times 1 to `MAX_TIME` (dispatch_source_create(3)) |
//! | `cancelled S B` | B is the cancellation block of the source S, and so is submitted (dispatch_source_set_cancel_handler(3)) |
//! | `until MS` | the last due time of timers and limit of waits, 1 to `MAX_TIME`; 1000 when absent |
//! | `block B`, `block B W F`, `block B W F FROM LEN`, `block B count V F`, `block B count V F FROM LEN` | W is `bytes`, `lines`, `words` or `sum`, F a file, V 0 to 255, FROM and LEN at most `MAX_FILE_BYTES` |
//! | `intake Q N` | N blocks for closures from outside, named `+1` to `+N`, 1 to `MAX_INTAKE`, on the queue Q |
//! | `strip A W F LEN N` | N blocks named `A.0` to `A.(N-1)`, N below `MAX_BLOCKS`: `A.i` has the work W over LEN bytes of F, 1 to `MAX_FILE_BYTES`, from LEN * i on (dispatch_apply(3)) |
//! | `handler S` | the acts of the source S (dispatch_source_set_event_handler(3)) |
//! | `main` | the acts of `main` |
//!
//! | act | names | in a handler |
//! |---|---|---|
//! | `async Q B`, `barrier Q B`, `sync Q B`, `barrier_sync Q B` | a queue, a block | no |
//! | `group_async G Q B`, `notify G Q B` | a group, a queue, a block | no |
//! | `enter G`, `leave G` | a group | yes |
//! | `group_wait G` | a group | no |
//! | `group_wait_for G MS` | a group, MS 0 to `MAX_TIME` | no |
//! | `signal S` | a semaphore | yes |
//! | `wait S` | a semaphore | no |
//! | `wait_for S MS` | a semaphore, MS 0 to `MAX_TIME` | no |
//! | `suspend O`, `resume O`, `activate O` | a queue other than `root`, or a source | yes |
//! | `target O T` | O as above, T a queue | yes |
//! | `merge S N` | an add, or or replace source, N 0 to `MAX_VALUE` | yes |
//! | `cancel S` | a source | yes |
//! | `retain O`, `release O` | any object but `root` | yes |
//! | `apply Q A` | a queue, a strip (dispatch_apply(3)) | no |
//! | `cancel_block B` | a block (dispatch_block_cancel(3)) | yes |
//! | `wait_block B` | a block (dispatch_block_wait(3)) | no |
//! | `notify_block B Q C` | a block, a queue, a block (dispatch_block_notify(3)) | no |
//!
//! The blocks of an intake and of strips come behind the blocks above the line. No line can name them, since `+1` and `A.0` are
//! no names.
//!
//! | code | [`Refusal`] | where |
//! |---|---|---|
//! | 1 | `NoForm` | the line has another byte, or is of no form, or is an act outside a body |
//! | 2 | `BadName` | the declared name is ill-formed, reserved or taken, or it is a second `until` or `intake` |
//! | 3 | `UnknownName` | a used name is not declared above |
//! | 4 | `OtherKind` | a used name is of another kind than the form asks |
//! | 5 | `BadNumber` | a word in a number's place is no number, or out of its range |
//! | 6 | `Repeated` | the block is submitted above, or the strip applied, or the source has a handler or a cancellation block already |
//! | 7 | `InHandler` | the act is not allowed in a handler |
//! | 8 | `PastLimit` | with what the line adds there are more than `MAX_FILES`, `MAX_OBJECTS`, `MAX_BLOCKS`, `MAX_STRIPS` or `MAX_ACTS` of `gcd_plan` allow |
//! | 9 | `NotOneMain` | it is a second `main`; or there is none, and the line is the number of lines plus one |
//!
//! Where words have no fault of their own the codes 6 to 8 are judged: they exceed those of words, so the lowest is told.
//!
//! One pass reads the text: a line is cut into words once and each name is looked up once, in a hash map whose seed is fixed.
//! So the time is in proportion to the bytes, but for names that were chosen to meet in the map. Nothing is said of when
//! memory runs out, nor of what is in the files.
#![tactic(auto)]

mod acts;
mod amount;
mod big;
mod cause;
mod changes;
mod declarations;
mod draft;
mod fault;
mod judge;
mod keyword;
pub mod laws;
mod line;
mod meant;
mod names;
mod parser;
mod refusal;
mod words;

pub use amount::Amount;
pub use big::big_text;
pub use cause::{Cause, Choice, Limit};
pub use fault::ParseFault;
pub use gcd_builder::Asked;
pub use parser::parse;
pub use refusal::Refusal;
