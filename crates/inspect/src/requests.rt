// A lawful request: the file's figures on the first line, and then a line for each group.
use std::io;
use zengin::groups::{Group, group_closed_by};
use zengin::lengths::records_of;
use zengin::totals::Figures;

// The lines are this program's own, so they are written here, and no type prints itself as one.
pub fn print_request(rt: &HostRuntime, file: &[u8], figures: Figures) -> io::Result<()> {
    let records = records_of(file).len();
    let Figures { groups, requested } = figures;
    println!(rt;
        "LAWFUL {records} {groups} {} {}",
        requested.count, requested.amount
    )?;
    for group in (1..=records).filter_map(|record| group_closed_by(file, record)) {
        print_group(rt, group)?;
    }
    Ok(())
}

fn print_group(rt: &HostRuntime, group: Group) -> io::Result<()> {
    let Group {
        biller,
        month,
        day,
        requested,
    } = group;
    println!(rt;
        "{biller:010} {month:02}/{day:02} {} {}",
        requested.count, requested.amount
    )
}
