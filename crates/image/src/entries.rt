// Quotas as entries of an image: grant and remainder, and in a full form the permissions and three zero bytes.
ghost use Rattle.std.specs.Prelude.{◌≡◌, cond, ◌++◌, ◌+◌, ◌*◌, ◌≤◌, ◌<◌, ◌^◌, length, take, drop, get_or, replicate};
ghost use Rattle.accounts.specs.Accounts.{QUOTAS, ALL_PERMISSIONS};
ghost use Rattle.words.specs.Words.{quotas_of};
ghost use Rattle.layout.specs.Bytes.{bytes, overwrite};
ghost use Rattle.lists.specs.Lists.{all};
ghost use Rattle.framing.specs.Frames.{stream_of};
ghost use Rattle.image_model.specs.Items.{many, each, every};
ghost use Rattle.image_model.specs.Stream.{form_2, tail_right, no_grant, all_permitted, entry_bytes, entry_width, entries_at, blank};
ghost use Rattle.image_model.specs.Reading.{entry_of, entry_right};

use crate::forms::entry_at;
use crate::numbers::read_quad;
use accounts::{ALL_PERMISSIONS, QUOTAS, Quota};
use image_model::Form;
use words::WORDS;

// Whether each quota has every permission.
pub(crate) fn are_permitted(words: &[u32; WORDS]) -> bool
    ensures { result ≡ all all_permitted (quotas_of words.now) }
{
    for i in 0..QUOTAS {
        let quota = words::quota_at(words, i);
        if quota.permissions != ALL_PERMISSIONS {
            return false;
        }
    }
    true
}

// Whether no quota from one on has a grant.
pub(crate) fn no_grants(words: &[u32; WORDS], from: usize) -> bool
    ensures { result ≡ all no_grant (drop from (quotas_of words.now)) }
{
    for i in from..QUOTAS {
        let quota = words::quota_at(words, i);
        if quota.grant != 0 {
            return false;
        }
    }
    true
}

// The permissions and three zero bytes, written at a place of the head.
fn write_permissions(head: &mut [u8], at: usize, permissions: u8)
    requires { at + 4 ≤ length head.old }
    ensures { head.new ≡ overwrite at (bytes 1 permissions ++ replicate 3 0) head.old }
{
    layout::write_u32(head, at, u32::from(permissions));
}

// An entry, written at a place of the head, of which the contracts say by `overwrite at` what stays.
fn write_entry(head: &mut [u8], at: usize, quota: Quota, form: Form)
    requires { at + entry_width form ≤ length head.old }
    ensures { head.new ≡ overwrite at (entry_bytes form quota) head.old }
{
    layout::write_u32(head, at, quota.grant);
    layout::write_u32(head, at + 4, quota.remainder);
    if form.full {
        write_permissions(head, at + 8, quota.permissions);
    }
}

// The entries of the quotas that a form carries.
pub(crate) fn write_entries(head: &mut [u8], words: &[u32; WORDS], form: Form)
    requires { (form.quotas ≤ QUOTAS) × (12 + form.quotas * entry_width form ≤ length head.old) }
    ensures { head.new
        ≡ overwrite entries_at (many (entry_bytes form) (take form.quotas (quotas_of words.now))) head.old }
{
    for i in 0..form.quotas {
        let quota = words::quota_at(words, i);
        write_entry(head, entry_at(i, form), quota, form);
    }
}

// The permissions that an entry says at a place of the stream; a form that is not full says all.
fn read_permissions(image: &[u8], at: usize, form: Form) -> u8
    ensures { result ≡ cond form.full (get_or (stream_of image.now) at 0) ALL_PERMISSIONS }
{
    if !form.full {
        return ALL_PERMISSIONS;
    }
    framing::stream_at(image, at)
}

// The quota of the entry at a place of the stream.
pub(crate) fn read_entry(image: &[u8], at: usize, form: Form) -> Quota
    requires { at + 12 < 2 ^ 32 }
    ensures { result ≡ entry_of form (take (entry_width form) (drop at (stream_of image.now))) }
{
    Quota {
        grant: read_quad(image, at),
        remainder: read_quad(image, at + 4),
        permissions: read_permissions(image, at + 8, form),
    }
}

// Whether the permissions at a place of the stream are such, and the three bytes behind them zero: as one number they are at most 7.
fn are_permissions(image: &[u8], at: usize) -> bool
    requires { at + 4 < 2 ^ 32 }
    ensures { result ≡ tail_right form_2 (take 4 (drop at (stream_of image.now))) }
{
    read_quad(image, at) <= 7
}

// Whether a form's entries are right: in a full form their permissions and the three bytes behind them.
pub(crate) fn entries_right(image: &[u8], form: Form) -> bool
    requires { form.quotas ≤ QUOTAS }
    ensures { result ≡ every (entry_right form) (entry_width form) form.quotas (drop entries_at (stream_of image.now)) }
{
    if !form.full {
        return true;
    }
    for i in 0..form.quotas {
        if !are_permissions(image, 12 + i * 12 + 8) {
            return false;
        }
    }
    true
}
