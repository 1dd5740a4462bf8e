// The openings: a scope, and an iterator with its committed bindings. Every word is written.
ghost use Rattle.queue_record.specs.Openings.{scope_opened, iterator_opened};
ghost use Rattle.queue_words.specs.Exported.{OpensOn};

use queue_words::layout::Words;

#[unsafe(no_mangle)]
pub extern "C" fn gulberzan_open_scope(queue: &mut Words, domain: u64, first: u64) -> u64
    ensures { OpensOn (scope_opened domain first) result queue.new }
{
    gulberzan_c::gulberzan_open_scope(queue, domain, first)
}

#[unsafe(no_mangle)]
pub extern "C" fn gulberzan_open_iterator(
    queue: &mut Words,
    domain: u64,
    first: u64,
    bindings: &[u64],
) -> u64
    ensures { OpensOn (iterator_opened domain first bindings.now) result queue.new }
{
    gulberzan_c::gulberzan_open_iterator(queue, domain, first, bindings)
}
