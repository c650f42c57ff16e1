// Both ends of each ring look.
ghost use Rattle.std.specs.Prelude.{◌≡◌, ◌<◌, length, map, slice_index_or};
ghost use Rattle.fire_tasks.specs.Ports.{IsPair};
ghost use Rattle.fire_open.specs.Links.{ArePaired, ShareNoEnd, AreMet};
ghost use Rattle.fire_open.specs.Settling.{Met};
ghost use Rattle.fire_open.specs.TaskCores.{task_core};

use fire_tasks::Task;
use river_base::Listed;

/// A queue between two operators: the port that writes it, and the port that reads it.
#[derive(Clone, Copy)]
pub struct Link {
    pub writer: usize,
    pub out: usize,
    pub reader: usize,
    pub port: usize,
}

// The two ends of the ring of a link look.
fn settle_one(tasks: &mut Listed<Task>, link: Link)
    requires order { link.writer < link.reader }
    requires reader { link.reader < length tasks.old }
    requires out { (d : _) → link.out < length (slice_index_or tasks.old link.writer d).outs }
    requires port { (d : _) → link.port < length (slice_index_or tasks.old link.reader d).ins }
    requires pair { (t t' : _) (f : _) (i : _)
        → IsPair (slice_index_or (slice_index_or tasks.old link.writer t).outs link.out f)
        (slice_index_or (slice_index_or tasks.old link.reader t').ins link.port i) }
    ensures { Met tasks.old tasks.new link }
{
    let (before, after) = tasks.as_mut_slice().split_at_mut(link.reader);
    let writer = &mut before[link.writer];
    let reader = &mut after[0];
    writer.meet(link.out, reader, link.port);
}

/// Both ends of each ring look; afterwards they know of each other.
pub fn settle_all(tasks: &mut Listed<Task>, links: &Listed<Link>)
    requires paired { ArePaired tasks.old links.now }
    requires apart { ShareNoEnd links.now }
    ensures task_core { map task_core tasks.new ≡ map task_core tasks.old }
    ensures met { AreMet tasks.new links.now (length links.now) }
{
    for place in 0..links.len() {
        let link = *links.at(place);
        settle_one(tasks, link);
    }
}
