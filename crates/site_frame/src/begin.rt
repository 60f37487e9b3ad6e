// The beginning of a record.
ghost use Rattle.std.specs.Prelude.{◌≡◌, ◌≢◌, ◌<◌, ◌≤◌, ◌+◌, [], false, vec_len, vec_capacity};
ghost use Rattle.site_frame.specs.Whole.{Follow};
ghost use Rattle.site_frame.specs.Behind.{Behind, greatest_record};
ghost use Rattle.site_frame.specs.declared.coming.Coming.TheVariants.{Head, Rest, Whole, NoRoom, Finished};

use crate::coming::Coming;
use crate::head::HEAD;
use crate::reading::rest_len;

// Makes room for a record, and puts its head there.
fn begin_rest(head: &[u8; HEAD], rest: usize, bytes: &mut Vec<u8>) -> (Coming, usize)
    requires { Follow head.now rest }
    ensures behind { Behind result.0 [] bytes.new.items result.1 head.now false }
    ensures head { result.0 ≢ Head }
    ensures unfinished { result.0 ≢ Finished }
    ensures rest { result.0 ≡ Rest → (0 < result.1) × (vec_len bytes.new + result.1 ≤ vec_capacity bytes.new) }
    ensures whole { result.0 ≡ Whole → result.1 ≡ 0 }
    ensures kept { greatest_record ≤ vec_capacity bytes.old
        → (greatest_record ≤ vec_capacity bytes.new) × (result.0 ≢ NoRoom) }
{
    bytes.clear();
    if bytes.reserve_exact(HEAD + rest).is_err() {
        return (Coming::NoRoom, 0);
    }
    bytes.extend_from_slice(head).unwrap();
    if rest == 0 {
        (Coming::Whole, 0)
    } else {
        (Coming::Rest, rest)
    }
}

/// What comes behind a head that has come whole, and how many bytes of it: nothing if no record begins with the head.
pub fn begin(head: &[u8; HEAD], bytes: &mut Vec<u8>) -> (Coming, usize)
    ensures behind { Behind result.0 [] bytes.new.items result.1 head.now false }
    ensures head { result.0 ≢ Head }
    ensures unfinished { result.0 ≢ Finished }
    ensures rest { result.0 ≡ Rest → (0 < result.1) × (vec_len bytes.new + result.1 ≤ vec_capacity bytes.new) }
    ensures whole { result.0 ≡ Whole → result.1 ≡ 0 }
    ensures kept { greatest_record ≤ vec_capacity bytes.old
        → (greatest_record ≤ vec_capacity bytes.new) × (result.0 ≢ NoRoom) }
{
    match rest_len(head) {
        Ok(rest) => begin_rest(head, rest, bytes),
        Err(why) => (Coming::Refused(why), 0),
    }
}
