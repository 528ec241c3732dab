// Files too long to compute by the rules are run: the largest amounts, and the largest files.
use carrier::{pack, unpack};
use denials::{Denial, Fault, RecordFault};
use std::alloc::{AllocError, Global};
use std::test::Fail;
use zengin::check::check as judge;

const HEADER: &[u8] =
    b"19100000000123GAS                                     06270001               001               11234567                 ";

// A data record before and after its amount.
const PAYER: &[u8] =
    b"20002               003                   10000007A B                           ";

const CUSTOMER: &[u8] = b"0000000000000000000410        ";

const END: &[u8] =
    b"9                                                                                                                       ";

// A file of one group: so many data records of one amount, and a trailer that states these digits of count and amount.
fn one_group(
    heap: Global,
    count: usize,
    amount: &[u8],
    stated: &[u8],
) -> Result<Vec<u8>, AllocError> {
    let mut file = Vec::new(heap);
    file.extend_from_slice(HEADER)?;
    for _ in 0..count {
        file.extend_from_slice(PAYER)?;
        file.extend_from_slice(amount)?;
        file.extend_from_slice(CUSTOMER)?;
    }
    file.extend_from_slice(b"8")?;
    file.extend_from_slice(stated)?;
    file.extend_from_slice(&[b'0'; 36])?;
    file.extend_from_slice(&[b' '; 65])?;
    file.extend_from_slice(END)?;
    Ok(file)
}

fn refused_at(record: usize, fault: Fault) -> Result<(), Denial> {
    Err(Denial::Faulty(RecordFault { record, fault }))
}

#[test]
fn a_hundred_largest_amounts_have_a_sum_of_twelve_digits(rt: HostRuntime) -> Result<(), Fail> {
    let file = one_group(rt.alloc(), 100, b"9999999999", b"000100999999999900")?;
    assert_eq!(rt; judge(file.as_slice()), Ok(()));
    Ok(())
}

#[test]
fn one_more_has_a_sum_that_no_trailer_states(rt: HostRuntime) -> Result<(), Fail> {
    let cut = one_group(rt.alloc(), 101, b"9999999999", b"000101009999999899")?;
    assert_eq!(rt; judge(cut.as_slice()), refused_at(103, Fault::WrongAmount));
    let most = one_group(rt.alloc(), 101, b"9999999999", b"000101999999999999")?;
    assert_eq!(rt; judge(most.as_slice()), refused_at(103, Fault::WrongAmount));
    let wrong_count = one_group(rt.alloc(), 101, b"9999999999", b"000100009999999899")?;
    assert_eq!(rt;
        judge(wrong_count.as_slice()),
        refused_at(103, Fault::WrongCount)
    );
    Ok(())
}

#[test]
fn ten_thousand_records_are_the_most(rt: HostRuntime) -> Result<(), Fail> {
    let most = one_group(rt.alloc(), 9997, b"0000000001", b"009997000000009997")?;
    assert_eq!(rt; judge(most.as_slice()), Ok(()));
    let more = one_group(rt.alloc(), 9998, b"0000000001", b"009998000000009998")?;
    assert_eq!(rt; judge(more.as_slice()), Err(Denial::TooManyRecords));
    Ok(())
}

#[test]
fn a_missing_record_stands_one_past_the_last(rt: HostRuntime) -> Result<(), Fail> {
    let mut file = one_group(rt.alloc(), 9998, b"0000000001", b"009998000000009998")?;
    file.truncate(1200000);
    assert_eq!(rt;
        judge(file.as_slice()),
        refused_at(10001, Fault::OutOfOrder)
    );
    Ok(())
}

#[test]
fn a_packed_file_unpacks_to_itself(rt: HostRuntime) -> Result<(), Fail> {
    let file = one_group(rt.alloc(), 1, b"0000001500", b"000001000000001500")?;
    let mut packed = vec![in rt.alloc(); 7u8; 490]?;
    assert_eq!(rt; pack(file.as_slice(), packed.as_mut_slice()), Ok(488));
    assert!(rt; packed.as_slice().starts_with(HEADER));
    assert!(rt; packed.as_slice().ends_with(b"\r\n\x07\x07"));
    let mut bare = vec![in rt.alloc(); 7u8; 481]?;
    packed.truncate(488);
    assert_eq!(rt; unpack(packed.as_slice(), bare.as_mut_slice()), Ok(480));
    assert!(rt; bare.as_slice().starts_with(file.as_slice()));
    assert!(rt; bare.as_slice().ends_with(b" \x07"));
    Ok(())
}

#[test]
fn a_short_buffer_is_denied_and_left_alone(rt: HostRuntime) -> Result<(), Fail> {
    let file = one_group(rt.alloc(), 1, b"0000001500", b"000001000000001500")?;
    let mut short = vec![in rt.alloc(); 7u8; 487]?;
    assert_eq!(rt;
        pack(file.as_slice(), short.as_mut_slice()),
        Err(Denial::ShortBuffer)
    );
    short.truncate(479);
    assert_eq!(rt;
        unpack(file.as_slice(), short.as_mut_slice()),
        Err(Denial::ShortBuffer)
    );
    assert!(rt; short.as_slice().starts_with(b"\x07\x07"));
    Ok(())
}
