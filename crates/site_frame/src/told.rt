// What a head tells.
ghost use Rattle.site_frame.specs.RecordCount.{Tells};

use crate::head::HEAD;
use crate::reading::rest_len;

/// How many bytes a head tells: none if no record begins with it, so that the next head is looked for behind it.
pub fn told(head: &[u8; HEAD]) -> usize
    ensures { Tells head.now result }
{
    match rest_len(head) {
        Ok(rest) => rest,
        Err(_) => 0,
    }
}
