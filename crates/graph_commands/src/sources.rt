//! The samples of the sources of a graph.
ghost use Rattle.std.specs.Prelude.{◌≡◌, ◌<◌, ◌≤◌, ℕ, List, length, true, IfOk, IfErr};
ghost use Rattle.std.specs.List.{All};
ghost use Rattle.phase_accum.specs.Sends.{AreSends};
ghost use Rattle.graph_lang.specs.Samples.{AreSamplesOf, IsBadShortSample};
ghost use Rattle.graph_lang.specs.declared.sample.TheConstants.{TEXT_MAX};
ghost use Rattle.graph_base.specs.Graphs.{source_number, sources_of};
ghost use Rattle.watched_io.specs.Files.{HasBytes};
ghost use Rattle.stream_lists.specs.JobFields.{items_of};
ghost use Rattle.graph_commands.specs.FileJobs.{AreFirstSamples, AreSamples, Explains, IsGraphOf, IsReached, Known, file_of};

use crate::JobFault;
use crate::records::record_told;
use graph_lang::{Graph, Place, SampleFault, SampleTexts, TEXT_MAX};
use std::alloc::Global;
use watched_io::Files;

/// Why task number `t`, which is source number `source`, has no samples, where this record of its
/// file's text is none.
fn bad_sample(
    alloc: Global,
    graph: &Graph,
    t: usize,
    source: usize,
    number: usize,
    text: &[u8],
) -> JobFault
    requires task { t < length graph.now.tasks }
    requires source { source < sources_of graph.now }
    requires number { source ≡ source_number graph.now.tasks t }
    requires bad { IsBadShortSample number text.now }
    ensures { (known : Known) (name : List ℕ) → IsReached known name graph.now t
        → HasBytes (known (file_of graph.now t)) text.now → Explains known name result }
{
    match String::from_str(alloc, graph.name(Place::Task(t))) {
        Ok(name) => JobFault::BadSample {
            name,
            number,
            told: record_told(alloc, graph.file(source), number, text).ok(),
        },
        Err(_) => JobFault::OutOfMemory,
    }
}

/// Reads the samples of task number `t`, which is source number `source`, the whole file before the
/// first record.
fn read_source<F: Files, T: SampleTexts>(
    alloc: Global,
    files: &mut F,
    texts: &T,
    graph: &Graph,
    t: usize,
    source: usize,
) -> Result<Vec<i64>, JobFault>
    requires task { t < length graph.now.tasks }
    requires source { source < sources_of graph.now }
    requires number { source ≡ source_number graph.now.tasks t }
    requires may { T.may_read texts.now }
    ensures ok { IfOk result (λ values.
        AreSamplesOf (F.file files.old (file_of graph.now t)) values.items) }
    ensures values { IfOk result (λ values. AreSends values.items
        × (length values.items ≤ TEXT_MAX)) }
    ensures fault { IfErr result (λ fault. (name : List ℕ)
        → IsReached (F.file files.old) name graph.now t → Explains (F.file files.old) name fault) }
    ensures same { (other : List ℕ) → F.file files.new other ≡ F.file files.old other }
{
    let text = files.read(alloc, graph.file(source), TEXT_MAX)?;
    match texts.samples(alloc, text.as_slice()) {
        Ok(values) => Ok(values),
        Err(SampleFault::BadSample { number }) => {
            Err(bad_sample(alloc, graph, t, source, number, text.as_slice()))
        }
        Err(SampleFault::ReadFault) => Err(JobFault::ReadFault),
        Err(SampleFault::OutOfMemory) => Err(JobFault::OutOfMemory),
    }
}

/// Reads the samples of each source in the order of the lines, each file whole before its first
/// record, and each source before the next.
pub fn read_sources<F: Files, T: SampleTexts>(
    alloc: Global,
    files: &mut F,
    texts: &T,
    graph: &Graph,
) -> Result<Vec<Vec<i64>>, JobFault>
    requires { T.may_read texts.now }
    ensures ok { IfOk result (λ lists.
        AreSamples (F.file files.old) graph.now (items_of lists.items)) }
    ensures each { IfOk result (λ lists. length lists.items ≡ sources_of graph.now) }
    ensures sends { IfOk result (λ lists. All (λ list. AreSends list.items) lists.items) }
    ensures few { IfOk result (λ lists. All (λ list. length list.items ≤ TEXT_MAX) lists.items) }
    ensures fault { IfErr result (λ fault. (name : List ℕ)
        → IsGraphOf (F.file files.old) name graph.now → Explains (F.file files.old) name fault) }
    ensures same { (other : List ℕ) → F.file files.new other ≡ F.file files.old other }
{
    let mut lists = Vec::new(alloc);
    for t in 0..graph.tasks() {
        if graph.is_source(t) {
            let list = match read_source(alloc, files, texts, graph, t, lists.len()) {
                Ok(list) => list,
                Err(fault) => return Err(fault),
            };
            let Ok(()) = lists.push(list) else {
                return Err(JobFault::OutOfMemory);
            };
        }
    }
    Ok(lists)
}
