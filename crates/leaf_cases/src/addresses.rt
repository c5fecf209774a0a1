// Cases of lists of addresses.
use crate::case::{field, words};
use case_blocks::Answer;
use mail_addresses::{
    Address, AddressError, FoundAddress, bare, first_address, local_part, quote_end, read_list,
    same_address,
};
use mail_text::{Memory, Text};

pub fn put(case: &[Text], out: &mut Answer) {
    match words(case, 1) {
        "read" => put_list(field(case, 2), out),
        "first" => put_first(field(case, 2), out),
        "quote end" => out.put_found(quote_end(field(case, 2))),
        "same" => out.put_flag(same_address(field(case, 2), field(case, 3))),
        _ => out.put_bad(),
    }
}

// `[NAME]LOCAL+REST` for each address, or the number of the first bad piece.
fn put_list(value: &[u8], out: &mut Answer) {
    match read_list(out.alloc(), value) {
        Ok(list) => {
            put_addresses(&list, out);
            drop(list);
        }
        Err(AddressError::Syntax { at }) => {
            out.put(b"bad ");
            out.put_shown(&at);
        }
        Err(AddressError::Memory) => out.lack(),
    }
}

fn put_addresses(list: &[Address], out: &mut Answer) {
    if list.is_empty() {
        out.put(b"none");
    }
    for (k, address) in list.iter().enumerate() {
        if k > 0 {
            out.put(b" ");
        }
        put_address(address, out);
    }
}

fn put_address(address: &Address, out: &mut Answer) {
    out.put(b"[");
    out.put(address.name.bytes());
    out.put(b"]");
    if address.local > address.spec.bytes().len() {
        return out.put_bad();
    }
    out.put(local_part(address));
    out.put(b"+");
    let (_, rest) = bare(address).split_at(address.local);
    out.put(rest);
}

// The first address of a list.
fn put_first(value: &[u8], out: &mut Answer) {
    match first_address(out.alloc(), value) {
        Ok(Some(address)) => put_found(&address, out),
        Ok(None) => out.put(b"none"),
        Err(Memory) => out.lack(),
    }
}

fn put_found(address: &FoundAddress<'_>, out: &mut Answer) {
    out.put(b"[");
    out.put(address.name());
    out.put(b"]");
    let local = address.local();
    let spec = address.spec();
    if local > spec.len() {
        return out.put_bad();
    }
    let (front, rest) = spec.split_at(local);
    out.put(front);
    out.put(b"+");
    out.put(rest)
}
