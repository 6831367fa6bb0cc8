// The lists of a run's files, marked.
ghost use Rattle.std.specs.Prelude.{◌≡◌};
ghost use Rattle.told.specs.Files.{files_told, files_marks};

use crate::refused::OPEN_FILE;
use card::all::{MarkedLists, marked_lists};
use card::lists::LEAST;
use card::refusal::Refusal;
use clusters::plan::Cluster;
use files::file::ends_in_lf;

// What marking two lists tells of them: the number of clusters, the score summed over the decided ones, and the plan.
#[derive(Clone, Copy)]
pub struct Marked {
    pub clusters: usize,
    pub score: usize,
    pub plan: [Cluster; LEAST],
}

// Marks two lists on the bases of a reference file, as `marked_lists` does; a file that does not end in LF is refused with 1.
pub fn mark_files(
    file: &[u8],
    name: &[u8],
    first: &[u8],
    second: &[u8],
    marks: &mut [u8],
) -> Result<Marked, Refusal>
    ensures { (result ≡ files_told file.now name.now first.now second.now marks.old)
        × (marks.new
        ≡ files_marks file.now name.now first.now second.now marks.old) }
{
    if !ends_in_lf(file) {
        return Err(OPEN_FILE);
    }
    let n = file.len() - 1;
    let MarkedLists { answer, plan } = marked_lists(&file[..n], name, first, second, marks);
    // By its number, since what card answers has the layout of the C interface.
    if answer.number != 0 {
        return Err(Refusal {
            number: answer.number,
            list: answer.list,
            line: answer.line,
            place: answer.place,
        });
    }
    Ok(Marked {
        clusters: answer.clusters as usize,
        score: answer.score as usize,
        plan,
    })
}
