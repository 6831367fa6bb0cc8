// Calls the card's `allele` and `allele_refusal` on a small list, and prints for each call the part that is shown and the four numbers of
// the refusal.
#![tactic(auto)]

use std::io;

fn show<'a>(
    rt: &impl Print,
    reference: &'a [u8],
    name: &[u8],
    text: &'a [u8],
    entry: usize,
    allele: usize,
) -> io::Result<()> {
    rt.write_all(card::allele::allele(reference, name, text, entry, allele))?;
    let refusal = card::allele::allele_refusal(reference, name, text, entry, allele);
    for n in [refusal.number, refusal.list, refusal.line, refusal.place] {
        print!(rt; "\t{n}")?;
    }
    rt.write_all(b"\n")
}

fn main(rt: HostRuntime) -> io::Result<()> {
    let reference: &[u8] = b"GCATATG";
    let name: &[u8] = b"chr1";
    let text: &[u8] =
        b"##fileformat=VCFv4.2\n#CHROM\tPOS\tID\tREF\tALT\tQUAL\tFILTER\tINFO\tFORMAT\tsample\n\
          chr1\t2\t.\tCAT\tC,CATAT\t.\tPASS\t.\tGT\t1/2\nchr1\t4\t.\tTAT\tT\t.\tPASS\t.\tGT\t1/1\n";
    for (entry, allele) in [
        (0, 0),
        (0, 1),
        (0, 2),
        (1, 0),
        (1, 1),
        (1, 2),
        (2, 0),
        (0, 3),
    ] {
        show(&rt, reference, name, text, entry, allele)?;
    }
    let header: &[u8] = b"##fileformat=VCFv4.2";
    let equal: &[u8] =
        b"##fileformat=VCFv4.2\n#CHROM\tPOS\tID\tREF\tALT\tQUAL\tFILTER\tINFO\tFORMAT\tsample\n\
          chr1\t2\t.\tCAT\tC,C\t.\tPASS\t.\tGT\t1/2\n";
    let others: [(&[u8], &[u8], &[u8]); 5] = [
        (b"GCATXTG", name, text),
        (b"GCATAAG", name, text),
        (reference, b"chr2", text),
        (reference, name, header),
        (reference, name, equal),
    ];
    for (reference, name, text) in others {
        show(&rt, reference, name, text, 0, 0)?;
    }
    Ok(())
}
